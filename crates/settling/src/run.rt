ghost use Rattle.std.specs.Prelude.{◌≡◌, ℕ, ◌<◌, ◌≤◌, List, [], ◌∷◌, length};
ghost use Rattle.stack.specs.Stacked.{downward};
ghost use Rattle.walk.specs.declared.frame.Frame.{Frame as FrameOf};
ghost use Rattle.walk.specs.Steps.{Walk};
ghost use Rattle.walk.specs.Laws.{Run};
ghost use Rattle.settling.specs.Means.{core_at, net_at, tree_at, Kept};
ghost use Rattle.settling.specs.Asks.{Charted};
ghost use Rattle.settling.specs.Turns.{after};

use super::turn::Turn;
use super::walker::Walker;
use keeper::Keeper;
use shelf::Shelf;
use stack::Stack;
use walk::frame::Frame;

/// Does to the visits under way what a step says.
fn turn_to<'a>(frames: &mut Stack<'a, Frame>, turn: Turn)
    requires { frames.old.len < length frames.old.room.now }
    ensures is { (f : FrameOf) (fs : List FrameOf) → downward frames.old.room.now frames.old.len ≡ f ∷ fs
        → downward frames.new.room.now frames.new.len ≡ after turn f fs }
    ensures size { length frames.new.room.now ≡ length frames.old.room.now }
{
    match turn {
        Turn::Stay => {}
        Turn::Leave => {
            frames.pop();
        }
        Turn::Enter(f) => {
            frames.push(f);
        }
    }
}

impl<S: Shelf, K: Keeper> Walker<'_, S, K> {
    /// Takes steps until no visit is under way.
    pub(crate) fn run_on<'a>(&mut self, frames: &mut Stack<'a, Frame>, source: u32)
        requires charted { Charted self.old.scheme.now self.old.map.now }
        requires source { source < (tree_at self.old).stations }
        requires space { 33 ≤ length frames.old.room.now }
        requires begun { Walk (net_at self.old) (tree_at self.old) source 0
            (record { core = core_at self.old; frames = downward frames.old.room.now frames.old.len }) }
        ensures run { Run (net_at self.old) (tree_at self.old) source (record { core = core_at self.new; frames = [] }) }
        ensures kept { Kept self.old self.new }
    {
        // Kept: a range, which never runs out, since no measure that the code can name falls with each step.
        for _step in 0..u32::MAX {
            let Some(f) = frames.top() else {
                return;
            };
            let turn = self.step(f);
            turn_to(frames, turn);
        }
    }
}
