ghost use Rattle.std.specs.Prelude.{◌≡◌, ℕ, ◌+◌, ◌-◌, ◌<◌, ◌≤◌, length, MatchOption, slice_index};
ghost use Rattle.map.specs.Means.{tree_of};
ghost use Rattle.map.specs.Nodes.{nth};

use super::map::Map;
use super::node::Node;

impl Map {
    /// The node of that number; past the last it has no parent, no children, and 0 in every number.
    fn node(&self, node: u32) -> Node
        ensures { result ≡ nth self.now.nodes.items node }
    {
        self.nodes.get(node as usize).copied().unwrap_or_default()
    }

    /// How many stations there are.
    pub fn stations(&self) -> u32
        ensures { result ≡ (tree_of self.now).stations }
    {
        self.place.len() as u32
    }

    /// The parent of a node; a root has none.
    pub fn parent_of(&self, node: u32) -> Option<u32>
        ensures { result ≡ (tree_of self.now).parent node }
    {
        self.node(node).parent
    }

    /// The level of a node.
    pub fn level_of(&self, node: u32) -> u32
        ensures is { result ≡ (tree_of self.now).level node }
        ensures small { result ≤ 32 }
    {
        self.node(node).level
    }

    /// By how much a delay is shifted to be counted in the width of a node's buckets.
    pub fn shift_of(&self, node: u32) -> u32
        ensures is { result ≡ (tree_of self.now).level node - 1 }
        ensures small { result < 32 }
    {
        self.level_of(node).saturating_sub(1)
    }

    /// By how much a counter of a node is shifted to be counted in the width of its parent's buckets.
    pub fn coarser(&self, node: u32, parent: u32) -> u32
        ensures is { result ≡ (tree_of self.now).level parent - (tree_of self.now).level node }
        ensures small { result ≤ 32 }
    {
        self.level_of(parent).saturating_sub(self.level_of(node))
    }

    /// How many children a node has.
    pub fn many_of(&self, node: u32) -> u32
        ensures { result ≡ length ((tree_of self.now).children node) }
    {
        self.node(node).many
    }

    /// The child of that place among the children of a node; 0 past the last.
    pub fn child_of(&self, node: u32, i: u32) -> u32
        ensures { result ≡ slice_index ((tree_of self.now).children node) i }
    {
        let Node { from, many, .. } = self.node(node);
        if i < many {
            let at = from as usize + i as usize;
            self.children.get(at).copied().unwrap_or(0)
        } else {
            0
        }
    }

    /// The place of a station.
    pub fn place_of(&self, station: u32) -> u32
        ensures { result ≡ (tree_of self.now).place station }
    {
        self.place.get(station as usize).copied().unwrap_or(0)
    }

    /// The first place of a node's run.
    pub fn low_of(&self, node: u32) -> u32
        ensures { result ≡ (tree_of self.now).low node }
    {
        self.node(node).low
    }

    /// The last place of a node's run.
    pub fn high_of(&self, node: u32) -> u32
        ensures { result ≡ (tree_of self.now).high node }
    {
        self.node(node).high
    }

    /// The bucket `k` of a node, counted from its first; none past its last.
    pub fn bucket_at(&self, node: u32, k: u64) -> Option<u32>
        ensures { MatchOption result ((tree_of self.now).buckets node ≤ k)
            (λ b. (k < (tree_of self.now).buckets node) × (b ≡ (tree_of self.now).first node + k)) }
    {
        let Node { buckets, first, .. } = self.node(node);
        if k < u64::from(buckets) {
            Some(first + k as u32)
        } else {
            None
        }
    }
}
