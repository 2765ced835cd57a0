/// A node of the tree: its parent, its level, its lowest station, its spread, its buckets and the first of them, the first and last place of its run,
/// and its children, which stand in the map's `children` from `from` on, so `many` of them.
#[derive(Clone, Copy, Debug, Default, PartialEq, Eq)]
pub struct Node {
    pub parent: Option<u32>,
    pub level: u32,
    pub lowest: u32,
    pub spread: u64,
    pub buckets: u32,
    pub first: u32,
    pub low: u32,
    pub high: u32,
    // Kept: a run of the map's list, since a list of each node's own children would take memory after opening.
    pub from: u32,
    pub many: u32,
}
