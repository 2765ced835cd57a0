ghost use Rattle.std.specs.Prelude.{◌≡◌, ◌<◌, None};
ghost use Rattle.walk.specs.Rules.{Belongs, Front};
ghost use Rattle.walk.specs.Able.{Ready, Fronted};
ghost use Rattle.map.specs.Means.{tree_of};
ghost use Rattle.settling.specs.Means.{base_of, core_at, tree_at, OnlyShelf};
ghost use Rattle.settling.specs.Asks.{Walkable, Brought};

use super::trail::Trail;
use super::walker::Walker;
use keeper::Keeper;
use map::map::Map;
use shelf::Shelf;

impl<S: Shelf, K: Keeper> Walker<'_, S, K> {
    /// Where the child `node` belongs: its least, counted in the width of its parent's buckets, tells the bucket; past the parent's last, or
    /// without a least, it belongs nowhere.
    pub(crate) fn belongs(&self, node: u32) -> Option<u32>
        requires listed { node < (tree_at self.now).nodes }
        requires tree { Walkable (tree_at self.now) }
        requires ready { let s = core_at self.now in Ready (tree_at self.now) s.so_far s.base node }
        ensures { let s = core_at self.now in Belongs (tree_at self.now) s.so_far s.base node result }
    {
        let x = self.map.parent_of(node)?;
        let start = self.trail.base_of(x)?;
        let d = self.least_of(node)?;
        let k = (d >> self.map.shift_of(x)) - start;
        self.map.bucket_at(x, k)
    }

    /// Brings the child `node` to where it belongs, unless it is there.
    pub(crate) fn bring(&mut self, node: u32)
        requires listed { node < (tree_at self.old).nodes }
        requires few { (S.meaning self.old.shelf).puts < 65535 }
        requires tree { Walkable (tree_at self.old) }
        requires ready { let s = core_at self.old in Ready (tree_at self.old) s.so_far s.base node }
        ensures brought { Brought (tree_at self.old) (core_at self.old) node (core_at self.new).shelf }
        ensures only_shelf { OnlyShelf self.old self.new }
    {
        let to = self.belongs(node);
        if self.shelf.bucket_of(node) == to {
            return;
        }
        self.shelf.lift(node);
        if let Some(b) = to {
            self.shelf.put(node, b);
        }
    }
}

impl Trail {
    /// The one unexpanded node that holds the station and whose parent is expanded.
    pub(crate) fn front(&self, map: &Map, station: u32) -> u32
        requires tree { Walkable (tree_of map.now) }
        requires shut { base_of self.now station ≡ None }
        requires fronted { Fronted (tree_of map.now) (base_of self.now) station }
        ensures is { Front (tree_of map.now) (base_of self.now) station result }
        ensures listed { result < (tree_of map.now).nodes }
    {
        let mut c = station;
        while let Some(p) = map.parent_of(c) {
            if self.base_of(p).is_some() {
                return c;
            }
            c = p;
        }
        c
    }
}
