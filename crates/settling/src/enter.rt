ghost use Rattle.std.specs.Prelude.{◌≡◌, ◌<◌, None};
ghost use Rattle.walk.specs.Rules.{Nothing};
ghost use Rattle.settling.specs.Means.{core_at, tree_at, Kept};
ghost use Rattle.settling.specs.Asks.{Walkable};
ghost use Rattle.settling.specs.Parts.{Kids};
ghost use Rattle.settling.specs.Turns.{beginning, Entered};

use super::walker::Walker;
use keeper::Keeper;
use shelf::Shelf;
use walk::frame::Frame;

impl<S: Shelf, K: Keeper> Walker<'_, S, K> {
    /// The visit of a child of `p` that begins now.
    fn frame_of(&self, node: u32, p: u32) -> Frame
        ensures { result ≡ beginning (tree_at self.now) node p (core_at self.now) }
    {
        let by = self.map.coarser(node, p);
        let began = self.trail.count_of(node) >> by;
        Frame { node, began }
    }

    /// Begins a visit of a child of `p`, which was taken: it is expanded if it was not.
    pub(crate) fn enter(&mut self, node: u32, p: u32) -> Frame
        requires listed { node < (tree_at self.old).nodes }
        requires tree { Walkable (tree_at self.old) }
        requires kids { (core_at self.old).base node ≡ None → Kids (tree_at self.old) node (core_at self.old).shelf }
        requires known { Nothing (tree_at self.old) (core_at self.old).so_far node → ⊥ }
        ensures entered { Entered (tree_at self.old) node p (core_at self.old) (core_at self.new) result }
        ensures keeper { self.new.keeper ≡ self.old.keeper }
        ensures kept { Kept self.old self.new }
    {
        if self.trail.base_of(node).is_none() {
            self.expand(node);
        }
        self.frame_of(node, p)
    }
}
