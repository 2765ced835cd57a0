ghost use Rattle.std.specs.Prelude.{◌≡◌, ℕ, suc, ◌+◌, ◌^◌, ◌<◌, ◌↔◌, IfOk, IsTrue, [], length, map};
ghost use Rattle.network.specs.Network.{Network, Small};
ghost use Rattle.network.specs.Schemes.{network_of};
ghost use Rattle.tree.specs.Components.{Forms};
ghost use Rattle.tree.proofs.Making.{Labels};

use network::entry::Standing;
use network::level::level;
use network::row::Row;
use network::scheme::Scheme;
use std::alloc::{AllocError, Global};
use std::marker::Model;

/// A station while the tree is made: the label of its group, the one that it had before the level in hand, and, where it is its own
/// label, how long the joining links inside its group take together.
#[derive(Clone, Copy, Debug, PartialEq, Eq)]
pub(crate) struct Member {
    pub label: u32,
    pub before: u32,
    pub sum: u64,
}

/// The stations of a network and the groups that they are in. There is room for 512 stations.
#[derive(Drop)]
pub(crate) struct Groups {
    members: Vec<Member>,
}

impl Model for Groups {
    ghost use Rattle.std.specs.Prelude.{List, ◌≤◌, vec_capacity};
    ghost use Rattle.making.specs.declared.groups.Member.{Member};

    ghost Value = { List Member };

    ghost view = { λ s. s.members.items };

    ghost invariant = { λ s. 512 ≤ vec_capacity s.members };
}

impl Groups {
    ghost use Rattle.making.specs.Members.{label_of, before_of, sum_of, kept, relabelled};
    ghost use Rattle.making.specs.Joins.{Grown, TakenIn, Linked};

    /// Memory for the largest network. It holds no station.
    pub(crate) fn new(heap: Global) -> Result<Groups, AllocError>
        ensures { IfOk result (λ groups. groups ≡ []) }
    {
        Ok(Groups {
            members: Vec::with_capacity(heap, 512)?,
        })
    }

    /// Before the first level each station is a group by itself: its own label, with no joining link inside.
    pub(crate) fn begin(&mut self, scheme: &Scheme)
        ensures { Grown (network_of scheme.now) (Small (network_of scheme.now) 0) self.new }
    {
        self.members.clear();
        // Kept: a push into reserved room cannot fail, while `extend` may ask for memory, and nothing is asked for after the making of the room.
        for station in 0..scheme.stations {
            self.members.push_reserved(Member {
                label: station,
                before: station,
                sum: 0,
            });
        }
    }

    /// Keeps the labels as they are, before the next level changes them.
    pub(crate) fn keep(&mut self)
        ensures { self.new ≡ map kept self.old }
    {
        for member in self.members.iter_mut() {
            member.before = member.label;
        }
    }

    /// One group takes in another: wherever the label was `hi`, it becomes `lo`.
    fn relabel(&mut self, hi: u32, lo: u32)
        ensures { self.new ≡ map (relabelled hi lo) self.old }
    {
        for member in self.members.iter_mut() {
            if member.label == hi {
                member.label = lo;
            }
        }
    }

    /// The group `lo` takes in the group `hi` by a link of `ns`: the labels become `lo`, and its sum is all that both have, and the link.
    fn join_groups(&mut self, lo: u32, hi: u32, ns: u32)
        requires listed { (lo < length self.old) × (hi < length self.old) }
        requires fits { ns + (sum_of self.old lo + sum_of self.old hi) < 2 ^ 64 }
        ensures { TakenIn self.old lo hi ns self.new }
    {
        let inside = self.members[lo as usize].sum + self.members[hi as usize].sum;
        self.relabel(hi, lo);
        self.members[lo as usize].sum = u64::from(ns) + inside;
    }

    /// A link makes one group of those of its two ends, where they are two.
    fn join_link(&mut self, row: Row)
        requires ends { (row.from < length self.old) × (row.to < length self.old) }
        requires labels { (label_of self.old row.from < length self.old) × (label_of self.old row.to < length self.old) }
        requires fits { row.ns + (sum_of self.old (label_of self.old row.from) + sum_of self.old (label_of self.old row.to)) < 2 ^ 64 }
        ensures { Linked self.old row self.new }
    {
        let a = self.members[row.from as usize].label;
        let b = self.members[row.to as usize].label;
        if a < b {
            self.join_groups(a, b, row.ns);
        } else if b < a {
            self.join_groups(b, a, row.ns);
        }
    }

    /// Looks at all links of the level after `done`, by number, and joins the ends of those in service: then that level is done too.
    pub(crate) fn join_level(&mut self, scheme: &Scheme, done: u32)
        requires low { done < 32 }
        requires grown { Grown (network_of scheme.now) (Small (network_of scheme.now) done) self.old }
        ensures grown { Grown (network_of scheme.now) (Small (network_of scheme.now) (suc done)) self.new }
        ensures before { (u : ℕ) → before_of self.new u ≡ before_of self.old u }
    {
        for entry in &scheme.links {
            if entry.standing == Standing::In && level(entry.row.ns) == done + 1 {
                self.join_link(entry.row);
            }
        }
    }

    /// Whether a group forms with `s` as its lowest station, by the labels before and after a level: `s` is a label still, and another label became `s`.
    pub(crate) fn forms(&self, s: u32) -> bool
        requires { s < length self.now }
        ensures { (g : Network) (i : ℕ) → Labels g i (before_of self.now) → Labels g (suc i) (label_of self.now) → length self.now ≡ g.stations
            → IsTrue result ↔ Forms g (suc i) s }
    {
        self.members[s as usize].label == s
            && self.members.iter().enumerate().any(|(r, m)| r != s as usize
                && m.before as usize == r
                && m.label == s)
    }
}
