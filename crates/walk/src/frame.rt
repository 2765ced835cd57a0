/// A visit under way: the node that is visited, and its counter in the width of its parent's buckets as the visit began (0 for a root, which has no parent).
#[derive(Clone, Copy, Debug, PartialEq, Eq)]
pub struct Frame {
    pub node: u32,
    pub began: u64,
}
