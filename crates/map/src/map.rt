ghost use Rattle.std.specs.Prelude.{ℕ, ◌+◌, ◌*◌, ◌^◌, ◌<◌, ◌≤◌, vec_len, slice_index};
ghost use Rattle.map.specs.Nodes.{nth};

use super::node::Node;

/// The tree over the stations: its nodes, their children, and by station its place. There are as many nodes and stations as their lists are long, in the
/// memory that `Map::new` reserves. Which tree it is, and whether it fits a network, is said in the words of crate `tree`; the facts here are only that the
/// numbers are small.
#[derive(Drop)]
pub struct Map {
    pub nodes: Vec<Node>,
    pub children: Vec<u32>,
    pub place: Vec<u32>,
    ghost counted: { vec_len nodes < 2 ^ 32 },
    ghost few: { vec_len place ≤ 512 },
    ghost levels: { (x : ℕ) → (nth nodes.items x).level ≤ 32 },
    ghost spreads: { (x : ℕ) → (nth nodes.items x).spread ≤ 511 * 4294967295 },
    ghost room: { (x : ℕ) → (nth nodes.items x).first + (nth nodes.items x).buckets < 2 ^ 32 },
    ghost seated: { (u : ℕ) → u < vec_len place → slice_index place.items u < vec_len place },
}
