ghost use Rattle.std.specs.Prelude.{◌≡◌, ℕ, ◌+◌, map, vec_len};
ghost use Rattle.shelf.specs.Means.{marks_hold};
ghost use Rattle.shelf_chains.specs.Rings.{Ringed, nexts, prevs};

use shelf::marks::Marks;

/// The nodes on either side of a node in its ring.
#[derive(Clone, Copy)]
pub(crate) struct Neighbours {
    pub(crate) next: usize,
    pub(crate) prev: usize,
}

/// A shelf of chains: the items of a bucket stand in a ring that goes through the bucket, so that each call but clear takes a constant
/// time. The nodes of the rings are the items and after them the buckets. The marks say where each item stands. Of the ranks that fall
/// along the rings nothing is kept but that there are some.
// Kept: rings by index. `new` reserves all memory, no later call allocates, and an item leaves its ring in constant time.
#[derive(Drop)]
pub struct Chains {
    pub(crate) marks: Marks,
    pub(crate) ring: Vec<Neighbours>,
    ghost nodes: { vec_len ring ≡ (marks_hold marks).items + (marks_hold marks).buckets },
    ghost ringed: { ∥ Ringed (marks_hold marks) (nexts ring.items) (prevs ring.items) ∥₁ },
}
