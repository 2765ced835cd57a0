ghost use Rattle.std.specs.Prelude.{ℕ, ◌<◌};
ghost use Rattle.settling.specs.Means.{core_at, net_at, tree_at, Kept};
ghost use Rattle.settling.specs.Asks.{Charted, Callable, Visited};

use super::walker::Walker;
use keeper::Keeper;
use shelf::Shelf;

impl<S: Shelf, K: Keeper> Walker<'_, S, K> {
    /// Visits the station `v`: its least becomes final, its place is retired, and its links are followed.
    pub(crate) fn visit_station(&mut self, v: u32)
        requires charted { Charted self.old.scheme.now self.old.map.now }
        requires station { v < (tree_at self.old).stations }
        requires callable { Callable (net_at self.old) (tree_at self.old) (core_at self.old) v }
        ensures visited { Visited (net_at self.old) (tree_at self.old) v (core_at self.old) (core_at self.new) }
        ensures kept { Kept self.old self.new }
    {
        let place = self.map.place_of(v);
        let Some(d) = self.keeper.least(place, place) else {
            return;
        };
        self.trail.settle(v, d);
        self.keeper.retire(place);
        self.follow_links(v, d);
    }
}
