ghost use Rattle.std.specs.Prelude.{◌≡◌, ◌+◌, ◌^◌, ◌<◌, None, vec_len, slice_index_or};
ghost use Rattle.settling.specs.Means.{final_of, base_of, count_of, SettledAt, Risen, Opened};

use super::progress::Progress;
use super::trail::Trail;

impl Trail {
    /// The delay of a visited station.
    pub(crate) fn final_of(&self, station: u32) -> Option<u64>
        ensures { result ≡ final_of self.now station }
    {
        self.settled.get(station as usize).copied().flatten()
    }

    /// The base of an expanded node.
    pub(crate) fn base_of(&self, node: u32) -> Option<u64>
        ensures { result ≡ base_of self.now node }
    {
        self.nodes.get(node as usize).and_then(|at| at.base)
    }

    /// The counter of a node.
    pub(crate) fn count_of(&self, node: u32) -> u64
        ensures { result ≡ count_of self.now node }
    {
        self.nodes.get(node as usize).map_or(0, |at| at.count)
    }

    /// Makes `d` the delay of a station.
    pub(crate) fn settle(&mut self, station: u32, d: u64)
        ensures { SettledAt self.old self.new station d }
    {
        if let Some(delay) = self.settled.get_mut(station as usize) {
            *delay = Some(d);
        }
    }

    /// Raises the counter of a node by one.
    pub(crate) fn rise(&mut self, node: u32)
        requires listed { node < vec_len self.old.nodes }
        requires fits { count_of self.old node + 1 < 2 ^ 64 }
        ensures { Risen self.old self.new node }
    {
        self.nodes[node as usize].count += 1;
    }

    /// Expands a node: `b` is its base and its counter.
    pub(crate) fn open(&mut self, node: u32, b: u64)
        requires { node < vec_len self.old.nodes }
        ensures { Opened self.old self.new node b }
    {
        self.nodes[node as usize] = Progress {
            base: Some(b),
            count: b,
        };
    }
}
