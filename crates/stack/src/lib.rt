//! A stack over a borrowed slice, for elements of any type that is `Copy`.

#![tactic(auto)]

ghost use Rattle.std.specs.Prelude.{◌≡◌, ◌-◌, ◌<◌, ◌≤◌, true, false, length, MatchOption, ◌==◌};
ghost use Rattle.stack.specs.Stacked.{Pushed, Popped};

/// A stack in the first `len` places of a slice that its maker lends: a list to whose end elements are pushed and from whose end they
/// are popped. What the slice holds past the stack stays as it was.
#[derive(Drop)]
pub struct Stack<'a, T> {
    // Kept: a length beside the slice, since the stack stands in memory that is lent to it and allocates none.
    room: &'a mut [T],
    len: usize,
    ghost within: { len ≤ length room.now },
}

impl<'a, T: Copy> Stack<'a, T> {
    /// An empty stack, which may hold as many elements as the slice has places.
    pub fn new(room: &'a mut [T]) -> Stack<'a, T>
        ensures bare { result.len ≡ 0 }
        ensures room { result.room.now ≡ room.old }
        ensures lent { result.room.ghost_name ≡ room.entry.ghost_name }
    {
        Stack { room, len: 0 }
    }

    /// How many elements the stack holds.
    pub fn len(&self) -> usize
        ensures { result ≡ self.now.len }
    {
        self.len
    }

    /// Whether it holds none.
    pub fn is_empty(&self) -> bool
        ensures { result ≡ (self.now.len == 0) }
    {
        self.len == 0
    }

    /// The element at the end, which stays there; none exactly if the stack is empty.
    pub fn top(&self) -> Option<T>
        ensures { MatchOption result (self.now.len ≡ 0) (λ x. Popped self.now.room.now self.now.len x self.now.room.now (self.now.len - 1)) }
    {
        self.room[..self.len].last().copied()
    }

    /// Pushes an element to the end. Where the slice is full it answers no, and nothing changes.
    // Kept: a bool, as shelves and keepers answer: a refused push changes nothing, and the element is `Copy`, so none has to come back.
    pub fn push(&mut self, x: T) -> bool
        ensures pushed { result ≡ true → (self.old.len < length self.old.room.now)
            × Pushed self.old.room.now self.old.len x self.new.room.now self.new.len }
        ensures full { result ≡ false → (self.old.len ≡ length self.old.room.now)
            × (self.new.len ≡ self.old.len) × (self.new.room.now ≡ self.old.room.now) }
        ensures lent { self.new.room.ghost_name ≡ self.old.room.ghost_name }
    {
        // Kept: the test in place of `get_mut`, whose proof does not close: it does not say what the slice holds once its borrow ends.
        if self.len >= self.room.len() {
            return false;
        }
        self.room[self.len] = x;
        self.len += 1;
        true
    }

    /// Pops the element at the end; none exactly if the stack is empty, and then nothing changes.
    pub fn pop(&mut self) -> Option<T>
        ensures popped { MatchOption result
            ((self.old.len ≡ 0) × (self.new.len ≡ 0) × (self.new.room.now ≡ self.old.room.now))
            (λ x. Popped self.old.room.now self.old.len x self.new.room.now self.new.len) }
        ensures lent { self.new.room.ghost_name ≡ self.old.room.ghost_name }
    {
        let top = self.top()?;
        self.len -= 1;
        Some(top)
    }
}
