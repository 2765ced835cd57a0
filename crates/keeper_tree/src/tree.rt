ghost use Rattle.std.specs.Prelude.{◌≡◌, ◌+◌, ◌^◌, ◌<◌, vec_len};
ghost use Rattle.keeper_tree.specs.Trees.{Over, under};

/// A keeper that is a tree of stored leasts. With n places, the node n + p has the delay at the place p, and each node k from 1 to
/// n − 1 the least of the nodes 2k and 2k + 1. So a change goes up the tree, and a least climbs it from both ends.
#[derive(Drop)]
pub struct Tree {
    pub(crate) nodes: Vec<Option<u64>>,
    // Kept: `places` beside twice as many nodes, since without it each call halves `nodes.len()`, and a ghost field still has to say that it is even.
    pub(crate) places: u32,
    ghost few: { places < 2 ^ 32 },
    ghost sized: { vec_len nodes ≡ places + places },
    ghost over: { Over places (under nodes.items) },
}
