ghost use Rattle.std.specs.Prelude.{◌≡◌, suc, ◌<◌, ◌≤◌, IfOk, [], length};
ghost use Rattle.network.specs.Network.{Small};
ghost use Rattle.network.specs.Schemes.{network_of};
ghost use Rattle.making.specs.Joins.{Grown};
ghost use Rattle.making.specs.Numbers.{StationsFirst, Numbered, Few};

use super::groups::Groups;
use super::nodes::Nodes;
use network::scheme::Scheme;
use std::alloc::{AllocError, Global};

/// The groups of a scheme while they grow, level by level, and the nodes found so far.
#[derive(Drop)]
pub(crate) struct Growth {
    pub groups: Groups,
    pub nodes: Nodes,
}

impl Growth {
    /// Memory for the largest network. It holds no station and no node, and later nothing more is asked for.
    pub(crate) fn new(heap: Global) -> Result<Growth, AllocError>
        ensures { IfOk result (λ growth. (growth.groups ≡ []) × (growth.nodes ≡ [])) }
    {
        Ok(Growth {
            groups: Groups::new(heap)?,
            nodes: Nodes::new(heap)?,
        })
    }

    // Kept: `Few` is asked in this crate until it is proved of every scheme (a tree has fewer than 2n nodes).
    // Kept: `low` is asked where a level is passed: a type for a level with its bound would be unwrapped at each use.
    // Kept: `first` beside `Numbered`: it tells of the stations, `Numbered` of the nodes after them.
    /// Goes through the level after `done`: joins its groups and numbers those that form.
    fn grow_level(&mut self, scheme: &Scheme, done: u32)
        requires few { Few (network_of scheme.now) 1024 }
        requires low { done < 32 }
        requires grown { Grown (network_of scheme.now) (Small (network_of scheme.now) done) self.old.groups }
        requires numbered { Numbered (network_of scheme.now) done 0 self.old.nodes }
        ensures grown { Grown (network_of scheme.now) (Small (network_of scheme.now) (suc done)) self.new.groups }
        ensures numbered { Numbered (network_of scheme.now) (suc done) 0 self.new.nodes }
        ensures first { StationsFirst scheme.now.stations self.old.nodes → StationsFirst scheme.now.stations self.new.nodes }
    {
        self.groups.keep();
        self.groups.join_level(scheme, done);
        self.nodes.number_level(scheme, done, &self.groups);
    }

    /// Goes through all 32 levels, from the stations by themselves on.
    fn grow_levels(&mut self, scheme: &Scheme)
        requires few { Few (network_of scheme.now) 1024 }
        requires grown { Grown (network_of scheme.now) (Small (network_of scheme.now) 0) self.old.groups }
        requires numbered { Numbered (network_of scheme.now) 0 0 self.old.nodes }
        ensures grown { Grown (network_of scheme.now) (Small (network_of scheme.now) 32) self.new.groups }
        ensures numbered { Numbered (network_of scheme.now) 32 0 self.new.nodes }
        ensures first { StationsFirst scheme.now.stations self.old.nodes → StationsFirst scheme.now.stations self.new.nodes }
    {
        // Kept: a loop over levels, which are numbers.
        for done in 0..32 {
            self.grow_level(scheme, done);
        }
    }

    /// From a scheme to its groups: joins and numbers them through all levels. Returns how many nodes there are.
    pub(crate) fn grow(&mut self, scheme: &Scheme) -> usize
        requires { Few (network_of scheme.now) 1024 }
        ensures grown { Grown (network_of scheme.now) (Small (network_of scheme.now) 32) self.new.groups }
        ensures numbered { Numbered (network_of scheme.now) 32 0 self.new.nodes }
        ensures first { StationsFirst scheme.now.stations self.new.nodes }
        ensures all { result ≡ length self.new.nodes }
        ensures room { result ≤ 1024 }
    {
        self.groups.begin(scheme);
        self.nodes.begin(scheme);
        self.grow_levels(scheme);
        self.nodes.len()
    }
}
