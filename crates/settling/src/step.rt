ghost use Rattle.std.specs.Prelude.{ℕ, ◌+◌, ◌^◌, ◌<◌, List, ◌∷◌};
ghost use Rattle.walk.specs.declared.frame.Frame.{Frame as FrameOf};
ghost use Rattle.walk.specs.State.{Shelf as ShelfOf, shelved};
ghost use Rattle.walk.specs.Steps.{Open, Going, Taken, Step};
ghost use Rattle.walk.specs.Able.{Able};
ghost use Rattle.settling.specs.Means.{core_at, net_at, tree_at, Kept};
ghost use Rattle.settling.specs.Asks.{Charted, Callable};
ghost use Rattle.settling.specs.Turns.{after};

use super::turn::Turn;
use super::walker::Walker;
use keeper::Keeper;
use shelf::Shelf;
use walk::frame::Frame;

impl<S: Shelf, K: Keeper> Walker<'_, S, K> {
    /// Takes one step of the walk, whose innermost visit is `f`, and tells what becomes of the visits under way.
    pub(crate) fn step(&mut self, f: Frame) -> Turn
        requires charted { Charted self.old.scheme.now self.old.map.now }
        requires able { Able (tree_at self.old) (core_at self.old) f }
        requires short { let s = core_at self.old in Open (tree_at self.old) s.final f.node → s.count f.node + 1 < 2 ^ 64 }
        requires callable { let s = core_at self.old in (v : ℕ) (h : ShelfOf) → Going (tree_at self.old) s f
            → Taken (tree_at self.old) s f.node v h → v < (tree_at self.old).stations
            → Callable (net_at self.old) (tree_at self.old) (shelved s h) v }
        ensures step { (fs : List FrameOf) → Step (net_at self.old) (tree_at self.old)
            (record { core = core_at self.old; frames = f ∷ fs })
            (record { core = core_at self.new; frames = after result f fs }) }
        ensures kept { Kept self.old self.new }
    {
        if !self.goes_on(f) {
            self.leave(f);
            return Turn::Leave;
        }
        let Some(c) = self.take_next(f.node) else {
            self.trail.rise(f.node);
            return Turn::Stay;
        };
        if c < self.map.stations() {
            self.visit_station(c);
            return Turn::Stay;
        }
        Turn::Enter(self.enter(c, f.node))
    }
}
