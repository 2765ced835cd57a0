ghost use Rattle.std.specs.Prelude.{◌≡◌, suc, ◌<◌, ◌≤◌, IfOk, [], length};
ghost use Rattle.network.specs.Schemes.{network_of};
ghost use Rattle.tree.proofs.Making.{Labels};
ghost use Rattle.making.specs.Members.{label_of, before_of};

use super::groups::Groups;
use network::scheme::Scheme;
use std::alloc::{AllocError, Global};
use std::marker::Model;

/// A node of the tree: the level at which its group forms, and its lowest station.
#[derive(Clone, Copy, Debug, PartialEq, Eq)]
pub(crate) struct Node {
    pub level: u32,
    pub lowest: u32,
}

/// The nodes by their numbers: first the stations, then the groups that were found. There is room for 1,024 nodes, and there are no more.
#[derive(Drop)]
pub(crate) struct Nodes {
    list: Vec<Node>,
}

impl Model for Nodes {
    ghost use Rattle.std.specs.Prelude.{List, ◌≤◌, length, vec_capacity};
    ghost use Rattle.making.specs.declared.nodes.Node.{Node};

    ghost Value = { List Node };

    ghost view = { λ s. s.list.items };

    ghost invariant = { λ s. (length s.list.items ≤ 1024) × (1024 ≤ vec_capacity s.list) };
}

impl Nodes {
    ghost use Rattle.making.specs.Numbers.{StationsFirst, Numbered, Few};

    // Kept: like `Groups::new`, a maker of one line; a generic list with a const room would need its own model for it.
    /// Memory for the tree of the largest network. It holds no node.
    pub(crate) fn new(heap: Global) -> Result<Nodes, AllocError>
        ensures { IfOk result (λ nodes. nodes ≡ []) }
    {
        Ok(Nodes {
            list: Vec::with_capacity(heap, 1024)?,
        })
    }

    /// How many nodes there are.
    pub(crate) fn len(&self) -> usize
        ensures is { result ≡ length self.now }
        ensures room { result ≤ 1024 }
    {
        self.list.len()
    }

    /// Before the first level each station is a node by itself, of level 0.
    pub(crate) fn begin(&mut self, scheme: &Scheme)
        ensures first { StationsFirst scheme.now.stations self.new }
        ensures numbered { Numbered (network_of scheme.now) 0 0 self.new }
    {
        self.list.clear();
        // Kept: a push into reserved room cannot fail, while `extend` may ask for memory, and nothing is asked for after the making of the room.
        for station in 0..scheme.stations {
            self.list.push_reserved(Node {
                level: 0,
                lowest: station,
            });
        }
    }

    /// Numbers the groups that form at the level after `done`, by rising lowest station.
    pub(crate) fn number_level(&mut self, scheme: &Scheme, done: u32, groups: &Groups)
        requires low { done < 32 }
        requires few { Few (network_of scheme.now) 1024 }
        requires all { length groups.now ≡ scheme.now.stations }
        requires before { Labels (network_of scheme.now) done (before_of groups.now) }
        requires labels { Labels (network_of scheme.now) (suc done) (label_of groups.now) }
        requires numbered { Numbered (network_of scheme.now) done 0 self.old }
        ensures numbered { Numbered (network_of scheme.now) (suc done) 0 self.new }
        ensures first { StationsFirst scheme.now.stations self.old → StationsFirst scheme.now.stations self.new }
    {
        // Kept: a loop over stations, which are numbers; a push into reserved room cannot fail, while `extend` may ask for memory.
        for s in 0..scheme.stations {
            if groups.forms(s) {
                self.list.push_reserved(Node {
                    level: done + 1,
                    lowest: s,
                });
            }
        }
    }
}
