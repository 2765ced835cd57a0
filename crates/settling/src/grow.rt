ghost use Rattle.std.specs.Prelude.{◌≡◌, ℕ, ◌<◌, ◌≤◌, Some};
ghost use Rattle.walk.specs.Rules.{Puts, Nothing};
ghost use Rattle.walk.specs.Able.{Ready};
ghost use Rattle.settling.specs.Means.{core_at, tree_at, Kept, OnlyShelf};
ghost use Rattle.settling.specs.Asks.{Walkable};
ghost use Rattle.settling.specs.Parts.{Kids, Grown};

use super::walker::Walker;
use keeper::Keeper;
use shelf::Shelf;

impl<S: Shelf, K: Keeper> Walker<'_, S, K> {
    /// Puts the children of a node where they belong, in their order.
    pub(crate) fn put_children(&mut self, node: u32)
        requires tree { Walkable (tree_at self.old) }
        requires kids { Kids (tree_at self.old) node (core_at self.old).shelf }
        requires ready { let s = core_at self.old in
            (c : ℕ) → (tree_at self.old).parent c ≡ Some node → Ready (tree_at self.old) s.so_far s.base c }
        ensures puts { let s = core_at self.old in
            Puts (tree_at self.old) s.so_far s.base ((tree_at self.old).children node) s.shelf (core_at self.new).shelf }
        ensures only_shelf { OnlyShelf self.old self.new }
    {
        // Kept: children by number: a list of them would need the run to lie within the map's list, and that would be asked of whoever makes a map.
        for i in 0..self.map.many_of(node) {
            let c = self.map.child_of(node, i);
            self.bring(c);
        }
    }

    /// Expands a node: its base and its counter become its least in the width of its buckets, and its children are put.
    pub(crate) fn expand(&mut self, node: u32)
        requires listed { node < (tree_at self.old).nodes }
        requires tree { Walkable (tree_at self.old) }
        requires kids { Kids (tree_at self.old) node (core_at self.old).shelf }
        requires known { Nothing (tree_at self.old) (core_at self.old).so_far node → ⊥ }
        ensures grown { Grown (tree_at self.old) node (core_at self.old) (core_at self.new) }
        ensures keeper { self.new.keeper ≡ self.old.keeper }
        ensures kept { Kept self.old self.new }
    {
        let Some(d) = self.least_of(node) else {
            return;
        };
        let b = d >> self.map.shift_of(node);
        self.trail.open(node, b);
        self.put_children(node);
    }
}
