ghost use Rattle.std.specs.Prelude.{◌≡◌, ℕ, ◌<◌, List, ◌∷◌, Some, None, MatchBool, MatchOption};
ghost use Rattle.network.specs.Network.{Network};
ghost use Rattle.walk.specs.declared.frame.Frame.{Frame as FrameOf};
ghost use Rattle.walk.specs.Rules.{Lowest, Nothing};
ghost use Rattle.walk.specs.Steps.{Going, Ended, Taken, Step};
ghost use Rattle.walk.specs.Able.{Ready};
ghost use Rattle.settling.specs.Means.{core_at, tree_at, OnlyShelf};
ghost use Rattle.settling.specs.Asks.{Walkable};
ghost use Rattle.settling.specs.Parts.{Watch, Counting, FoundEmpty};

use super::walker::Walker;
use keeper::Keeper;
use shelf::Shelf;
use walk::frame::Frame;

impl<S: Shelf, K: Keeper> Walker<'_, S, K> {
    /// The least of a node: the smallest delay that the keeper has of its stations.
    pub(crate) fn least_of(&self, node: u32) -> Option<u64>
        requires listed { node < (tree_at self.now).nodes }
        requires tree { Walkable (tree_at self.now) }
        ensures { let s = core_at self.now in MatchOption result (Nothing (tree_at self.now) s.so_far node) (Lowest (tree_at self.now) s.so_far node) }
    {
        let low = self.map.low_of(node);
        let high = self.map.high_of(node);
        self.keeper.least(low, high)
    }

    /// Whether the visit `f` goes on: its node has an unvisited station, and its counter is still in the bucket of the parent in which it was.
    pub(crate) fn goes_on(&self, f: Frame) -> bool
        requires listed { f.node < (tree_at self.now).nodes }
        requires tree { Walkable (tree_at self.now) }
        requires watch { let s = core_at self.now in Watch (tree_at self.now) s.final s.so_far f.node }
        ensures { let s = core_at self.now in MatchBool result (Going (tree_at self.now) s f) (Ended (tree_at self.now) s f) }
    {
        if self.least_of(f.node).is_none() {
            return false;
        }
        let Some(p) = self.map.parent_of(f.node) else {
            return true;
        };
        let by = self.map.coarser(f.node, p);
        self.trail.count_of(f.node) >> by == f.began
    }

    /// Ends the visit `f`: a child is put where it belongs, a root is not. Whatever visits are under way below it, this is a step.
    pub(crate) fn leave(&mut self, f: Frame)
        requires listed { f.node < (tree_at self.old).nodes }
        requires tree { Walkable (tree_at self.old) }
        requires few { (S.meaning self.old.shelf).puts < 65535 }
        requires free { (core_at self.old).shelf.bucket f.node ≡ None }
        requires ready { let s = core_at self.old in
            (p : ℕ) → (tree_at self.old).parent f.node ≡ Some p → Ready (tree_at self.old) s.so_far s.base f.node }
        requires ended { Ended (tree_at self.old) (core_at self.old) f }
        ensures step { (g : Network) (fs : List FrameOf) → Step g (tree_at self.old)
            (record { core = core_at self.old; frames = f ∷ fs }) (record { core = core_at self.new; frames = fs }) }
        ensures only_shelf { OnlyShelf self.old self.new }
    {
        if self.map.parent_of(f.node).is_some() {
            self.bring(f.node);
        }
    }

    /// Takes an item from the bucket at which the counter of the node stands.
    pub(crate) fn take_next(&mut self, node: u32) -> Option<u32>
        requires { Counting (tree_at self.old) (core_at self.old) node }
        ensures looked { let s = core_at self.old in let h = (core_at self.new).shelf in
            MatchOption result (FoundEmpty (tree_at self.old) s node h) (λ c. Taken (tree_at self.old) s node c h) }
        ensures only_shelf { OnlyShelf self.old self.new }
    {
        let start = self.trail.base_of(node)?;
        let k = self.trail.count_of(node) - start;
        let b = self.map.bucket_at(node, k)?;
        self.shelf.take(b)
    }
}
