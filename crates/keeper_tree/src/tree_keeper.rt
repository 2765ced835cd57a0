ghost use Rattle.std.specs.Prelude.{◌≡◌, ◌<◌, IfOk};
ghost use Rattle.keeper.specs.Keeps.{all_none, delay_at, noted};
ghost use Rattle.keeper_tree.specs.Means.{tree_keeps};
ghost use Rattle.std.proofs.Common.{◌-◌, sym, ap, ◌∙◌, length-drop};
ghost use Rattle.std.proofs.Math.Nat.{add-sub_cancel};

use super::tree::Tree;
use keeper::Keeper;
use keeper::lesser::lesser;
use std::alloc::{AllocError, Global};

impl Tree {
    /// A keeper of so many places, each with none.
    pub fn new(heap: Global, places: u32) -> Result<Tree, AllocError>
        ensures { IfOk result (λ s. tree_keeps s ≡ all_none places) }
    {
        let n = places as usize;
        let nodes = vec![in heap; None; n + n]?;
        Ok(Tree { nodes, places })
    }

    /// The delay at a place, or none.
    fn delay_at(&self, place: u32) -> Option<u64>
        ensures { result ≡ delay_at (tree_keeps self.now) place }
    {
        *self.nodes.get(self.places as usize + place as usize)?
    }

    /// Gives a place a delay or none, and mends the nodes above it.
    fn note(&mut self, place: u32, d: Option<u64>)
        requires { place < self.old.places }
        ensures { tree_keeps self.new ≡ noted (tree_keeps self.old) place d }
    {
        let mut k = self.places as usize + place as usize;
        let nodes = self.nodes.as_mut_slice();
        nodes[k] = d;
        // Kept: a `while`, since a node's number is halved on the way up and none is counted.
        while k >= 2 {
            k /= 2;
            nodes[k] = lesser(nodes[2 * k], nodes[2 * k + 1]);
        }
    }
}

impl Keeper for Tree {
    ghost meaning = { tree_keeps };

    ghost sized = { λ s. length-drop s.places s.nodes.items ∙ ap (λ n. n - s.places) (sym s.nodes.ok.0 ∙ s.sized) ∙ add-sub_cancel s.places s.places };

    fn places(&self) -> u32 {
        self.places
    }

    fn clear(&mut self) {
        self.nodes.fill(None);
    }

    fn lower(&mut self, place: u32, d: u64) -> bool {
        if place >= self.places || self.delay_at(place).is_some_and(|y| y <= d) {
            return false;
        }
        self.note(place, Some(d));
        true
    }

    fn retire(&mut self, place: u32) {
        if place < self.places {
            self.note(place, None);
        }
    }

    fn least(&self, first: u32, last: u32) -> Option<u64> {
        let n = self.places as usize;
        let nodes = self.nodes.as_slice();
        let mut low = n + first as usize;
        let mut high = n + n.min(last as usize + 1);
        let mut best = None;
        // Kept: a `while`, since both ends of a row are halved on the way up and none is counted.
        while low < high {
            best = lesser(best, lesser(nodes[low], nodes[high - 1]));
            low = low.div_ceil(2);
            high /= 2;
        }
        best
    }
}
