ghost use Rattle.std.specs.Prelude.{◌≡◌, ℕ, ◌^◌, ◌<◌, length, MatchOption};
ghost use Rattle.network.specs.Network.{Network, Hop};
ghost use Rattle.walk.specs.Rules.{Link, Links};
ghost use Rattle.walk.specs.Able.{Apt, Safe};
ghost use Rattle.settling.specs.Means.{core_at, net_at, tree_at, Kept};
ghost use Rattle.settling.specs.Asks.{Charted, EntryOf, Only};

use super::walker::Walker;
use keeper::Keeper;
use network::entry::{Entry, Standing};
use shelf::Shelf;

/// Where a link leads from the station `v`, if it is in service and a link of `v`.
pub(crate) fn other_end(v: u32, entry: Entry) -> Option<u32>
    ensures { (g : Network) (k : ℕ) → EntryOf g k entry → MatchOption result ((u : ℕ) → Hop g k v u → ⊥) (λ u. Only g k v u) }
{
    if entry.standing != Standing::In {
        return None;
    }
    let row = entry.row;
    if row.from == v {
        Some(row.to)
    } else if row.to == v {
        Some(row.from)
    } else {
        None
    }
}

impl<S: Shelf, K: Keeper> Walker<'_, S, K> {
    /// Follows the link `k`, whose entry this is, from the visited station `v`, whose delay is `d`.
    pub(crate) fn lower_along(&mut self, v: u32, d: u64, k: usize, entry: Entry)
        requires charted { Charted self.old.scheme.now self.old.map.now }
        requires short { d < 2 ^ 63 }
        requires entry { EntryOf (net_at self.old) k entry }
        requires apt { Apt (net_at self.old) (tree_at self.old) (core_at self.old) v d k }
        ensures link { Link (net_at self.old) (tree_at self.old) v d k
            (core_at self.old) (core_at self.new) }
        ensures trail { self.new.trail ≡ self.old.trail }
        ensures kept { Kept self.old self.new }
    {
        let Some(u) = other_end(v, entry) else {
            return;
        };
        if self.trail.final_of(u).is_some() {
            return;
        }
        let sum = d + u64::from(entry.row.ns);
        let place = self.map.place_of(u);
        if self.keeper.lower(place, sum) {
            let c = self.trail.front(self.map, u);
            self.bring(c);
        }
    }

    /// Follows the links of the visited station `v`, whose delay is `d`, in the order of their numbers.
    pub(crate) fn follow_links(&mut self, v: u32, d: u64)
        requires charted { Charted self.old.scheme.now self.old.map.now }
        requires short { d < 2 ^ 63 }
        requires safe { Safe (net_at self.old) (tree_at self.old) (core_at self.old) v d }
        ensures links { Links (net_at self.old) (tree_at self.old) v d
            (core_at self.old) (length (net_at self.old).rows) (core_at self.new) }
        ensures trail { self.new.trail ≡ self.old.trail }
        ensures kept { Kept self.old self.new }
    {
        let scheme = self.scheme;
        for (k, entry) in scheme.links.iter().enumerate() {
            self.lower_along(v, d, k, *entry);
        }
    }
}
