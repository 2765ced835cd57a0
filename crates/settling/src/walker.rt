ghost use Rattle.std.specs.Prelude.{◌≤◌, vec_len};
ghost use Rattle.tree.specs.Tree.{buckets_in_all};
ghost use Rattle.map.specs.Means.{tree_of};

use super::trail::Trail;
use keeper::Keeper;
use map::map::Map;
use network::scheme::Scheme;
use shelf::Shelf;

/// What walks have in hand: the scheme and its map, and their trail, shelf and keeper, which have room for the map.
#[derive(Drop)]
pub struct Walker<'a, S: Shelf, K: Keeper> {
    pub scheme: &'a Scheme,
    pub map: &'a Map,
    pub trail: Trail,
    pub shelf: S,
    pub keeper: K,
    // Kept: `Charted` and `Walkable` are asked by the methods and are no ghost facts: that takes a fact with one proof, and `near` of `Fits` and
    // `seat` of `Runs` hold a route and a station; truncated it would prove nothing here, since the contracts (Belongs, Step, Run) are data.
    ghost settled: { (tree_of map.now).stations ≤ vec_len trail.settled },
    ghost nodes: { (tree_of map.now).nodes ≤ vec_len trail.nodes },
    ghost items: { (tree_of map.now).nodes ≤ (S.meaning shelf).items },
    ghost buckets: { buckets_in_all (tree_of map.now) ≤ (S.meaning shelf).buckets },
    ghost places: { (tree_of map.now).stations ≤ (K.meaning keeper).places },
}
