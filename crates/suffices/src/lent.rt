ghost use Rattle.std.specs.Prelude.{◌≡◌, ◌<◌, length, MatchOption, slice_set};
ghost use Rattle.stack.specs.Stacked.{downward};

use stack::Stack;
pub use walk::frame::Frame;

/// Pushes a frame onto a stack over one lent slice, and its node onto one over another. Both slices come back with what was pushed.
pub fn note(frames: &mut [Frame], nodes: &mut [u32], f: Frame)
    ensures frames { 0 < length frames.old → frames.new ≡ slice_set frames.old 0 f }
    ensures nodes { 0 < length nodes.old → nodes.new ≡ slice_set nodes.old 0 f.node }
{
    let mut trail = Stack::new(frames);
    let mut list = Stack::new(nodes);
    trail.push(f);
    list.push(f.node);
}

/// Pushes an element onto a stack and pops one: the same element, and the stack holds what it held. None exactly if the stack is full.
pub fn there_and_back<T: Copy>(stack: &mut Stack<'_, T>, x: T) -> Option<T>
    ensures same { downward stack.new.room.now stack.new.len ≡ downward stack.old.room.now stack.old.len }
    ensures element { MatchOption result (stack.old.len ≡ length stack.old.room.now) (λ y. y ≡ x) }
{
    if stack.push(x) { stack.pop() } else { None }
}
