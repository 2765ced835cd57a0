//! Shelves, which the field calls bucket queues: items that stand in numbered buckets or nowhere. The trait says what every shelf
//! does; a shelf of marks is one.

#![tactic(auto)]

pub mod marks;
pub mod marks_shelf;

ghost use Rattle.std.specs.Prelude.{◌≡◌, ℕ, ◌<◌, ◌≤◌, true, false, length, Some, MatchOption};
ghost use Rattle.shelf.specs.Holds.{Holds, bucket_at, cleared, lifted, placed, MayPut, Bare};

/// A shelf: so many items, so many buckets, for each item a bucket or nowhere, and a count of puts. Every call may be made with any
/// number; an item that does not exist is nowhere, and a bucket that does not exist has no item.
pub trait Shelf {
    /// Everything that there is to know of a shelf; no contract speaks of anything else.
    ghost meaning: { Self → Holds };

    /// How many items there are.
    fn items(&self) -> u32
        ensures { result ≡ (meaning self.now).items };

    /// How many buckets there are.
    fn buckets(&self) -> u32
        ensures { result ≡ (meaning self.now).buckets };

    /// How many puts were done since the last clear.
    fn count(&self) -> u32
        ensures { result ≡ (meaning self.now).puts };

    /// The bucket of an item, or none where it is nowhere.
    fn bucket_of(&self, item: u32) -> Option<u32>
        ensures { result ≡ bucket_at (meaning self.now) item };

    /// Sends all items nowhere and the count to 0.
    fn clear(&mut self)
        ensures { meaning self.new ≡ cleared (meaning self.old) };

    /// Puts an item into a bucket and counts the put. It is done exactly if both exist, the item is nowhere and the count is below
    /// 65,535; else the answer is no, and nothing changes.
    fn put(&mut self, item: u32, bucket: u32) -> bool
        ensures done { result ≡ true → MayPut (meaning self.old) item bucket × (meaning self.new ≡ placed (meaning self.old) item bucket) }
        ensures refused { result ≡ false → (MayPut (meaning self.old) item bucket → ⊥) × (meaning self.new ≡ meaning self.old) };

    /// Sends an item nowhere.
    fn lift(&mut self, item: u32)
        ensures { meaning self.new ≡ lifted (meaning self.old) item };

    /// Hands over some item of a bucket and sends it nowhere; none exactly if the bucket has none. Which item is left free.
    fn take(&mut self, bucket: u32) -> Option<u32>
        ensures { MatchOption result
            (Bare (meaning self.old) bucket × (meaning self.new ≡ meaning self.old))
            (λ i. (bucket_at (meaning self.old) i ≡ Some bucket) × (meaning self.new ≡ lifted (meaning self.old) i)) };

    ghost sized: { (s : Self) → length (meaning s).at ≡ (meaning s).items };

    ghost inside: { (s : Self) (i b : ℕ) → bucket_at (meaning s) i ≡ Some b → b < (meaning s).buckets };

    ghost counted: { (s : Self) → (meaning s).puts ≤ 65535 };
}
