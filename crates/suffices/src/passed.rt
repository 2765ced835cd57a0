ghost use Rattle.std.specs.Prelude.{◌≡◌, ℕ, true, false, length};
ghost use Rattle.shelf.specs.Holds.{Bare, bucket_at};
ghost use Rattle.suffices.specs.Passed.{times, counts, count_in, MayPass, SameSize};

use shelf::Shelf;

// Kept: shelf, bucket and items are three parameters here and below: a struct of them would be made for these three functions alone, and taken apart in each.
/// Puts all items of a list into one bucket of a cleared shelf, up to the first that is refused.
fn put_all<S: Shelf>(shelf: &mut S, bucket: u32, items: &[u32]) -> bool
    ensures kept { SameSize (S.Shelf.meaning shelf.old) (S.Shelf.meaning shelf.new) }
    ensures many { result ≡ true → count_in bucket (S.Shelf.meaning shelf.new).at ≡ length items.now }
    ensures each { result ≡ true → (x : ℕ) → counts bucket (bucket_at (S.Shelf.meaning shelf.new) x) ≡ times x items.now }
    ensures refused { result ≡ false → MayPass (S.Shelf.meaning shelf.old) bucket items.now → ⊥ }
{
    shelf.clear();
    // Kept: `all` was tried and the proof did not close: nothing is known of a shelf that a closure changed at each item.
    for item in items {
        if !shelf.put(*item, bucket) {
            return false;
        }
    }
    true
}

/// Takes as many items out of a bucket as a list has, and writes them into the list.
fn take_all<S: Shelf>(shelf: &mut S, bucket: u32, items: &mut [u32])
    requires many { count_in bucket (S.Shelf.meaning shelf.old).at ≡ length items.old }
    ensures kept { SameSize (S.Shelf.meaning shelf.old) (S.Shelf.meaning shelf.new) }
    ensures bare { Bare (S.Shelf.meaning shelf.new) bucket }
    ensures each { (x : ℕ) → times x items.new ≡ counts bucket (bucket_at (S.Shelf.meaning shelf.old) x) }
{
    for item in items.iter_mut() {
        let Some(taken) = shelf.take(bucket) else {
            unreachable!()
        };
        *item = taken;
    }
}

/// Clears a shelf, puts the items of a list into a bucket and takes them out again. They come back in some order, the bucket is bare
/// then, and the shelf has its items and buckets; where they cannot all be put, the answer is no and the list stays.
pub fn pass_through<S: Shelf>(shelf: &mut S, bucket: u32, items: &mut [u32]) -> bool
    ensures kept { SameSize (S.Shelf.meaning shelf.old) (S.Shelf.meaning shelf.new) }
    ensures back { result ≡ true → (x : ℕ) → times x items.new ≡ times x items.old }
    ensures bare { result ≡ true → Bare (S.Shelf.meaning shelf.new) bucket }
    ensures refused { result ≡ false → (MayPass (S.Shelf.meaning shelf.old) bucket items.old → ⊥) × (items.new ≡ items.old) }
{
    if !put_all(shelf, bucket, items) {
        return false;
    }
    take_all(shelf, bucket, items);
    true
}
