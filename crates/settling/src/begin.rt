ghost use Rattle.std.specs.Prelude.{◌≡◌, ◌<◌, [], None};
ghost use Rattle.tree.specs.Tree.{Below};
ghost use Rattle.walk.specs.Steps.{Blank};
ghost use Rattle.map.specs.Means.{tree_of};
ghost use Rattle.settling.specs.Means.{core_at, tree_at, Kept};
ghost use Rattle.settling.specs.Asks.{Walkable};
ghost use Rattle.settling.specs.Begins.{Cleared};

use super::progress::Progress;
use super::trail::Trail;
use super::walker::Walker;
use keeper::Keeper;
use map::map::Map;
use shelf::Shelf;

impl Trail {
    /// Clears a trail: nothing is visited or expanded, and every counter is at 0.
    pub(crate) fn clear(&mut self)
        ensures { Cleared self.old self.new }
    {
        self.settled.fill(None);
        self.nodes.fill(Progress::default());
    }
}

/// The root that holds a station.
pub(crate) fn root_of(map: &Map, station: u32) -> u32
    requires { Walkable (tree_of map.now) }
    ensures holds { Below (tree_of map.now) station result }
    ensures top { (tree_of map.now).parent result ≡ None }
{
    let mut x = station;
    while let Some(p) = map.parent_of(x) {
        x = p;
    }
    x
}

impl<S: Shelf, K: Keeper> Walker<'_, S, K> {
    /// Makes ready for a walk from the source: trail, shelf and keeper are cleared, and the keeper has the source at 0.
    pub(crate) fn prepare(&mut self, source: u32)
        requires tree { Walkable (tree_at self.old) }
        requires source { source < (tree_at self.old).stations }
        ensures blank { Blank source (record { core = core_at self.new; frames = [] }) }
        ensures kept { Kept self.old self.new }
    {
        self.trail.clear();
        self.shelf.clear();
        self.keeper.clear();
        let place = self.map.place_of(source);
        self.keeper.lower(place, 0);
    }
}
