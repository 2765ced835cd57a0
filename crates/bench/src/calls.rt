use super::random::Random;
use keeper::Keeper;
use shelf::Shelf;

/// Makes random calls on a shelf, and answers a number that depends on every answer.
pub(crate) fn drive_shelf<S: Shelf>(shelf: &mut S, many: u32, random: &mut Random) -> u32 {
    let items = shelf.items();
    let buckets = shelf.buckets();
    let mut seen = 0u32;
    for _ in 0..many {
        let item = random.below(items);
        let bucket = random.below(buckets);
        // Kept: a roll is matched where it picks the call, since an enum of calls would be made by this same match, and then matched once more.
        let answer = match random.below(4) {
            0 | 1 => u32::from(shelf.put(item, bucket)),
            2 => shelf.take(bucket).unwrap_or(7),
            _ => {
                shelf.lift(item);
                3
            }
        };
        seen = seen.wrapping_mul(31).wrapping_add(answer);
    }
    seen
}

/// Lowers and retires places of a keeper at random, and answers how many were lowered.
pub(crate) fn drive_keeper<K: Keeper>(keeper: &mut K, many: u32, random: &mut Random) -> u32 {
    let places = keeper.places();
    // Kept: a loop, since a closure of `filter` would end its first branch in `false`, which is no answer.
    let mut lowered = 0u32;
    for _ in 0..many {
        let place = random.below(places);
        let d = random.below(1000000);
        if random.below(8) == 0 {
            keeper.retire(place);
        } else if keeper.lower(place, u64::from(d)) {
            lowered = lowered.wrapping_add(1);
        }
    }
    lowered
}

/// Asks a keeper for leasts over random runs of places.
pub(crate) fn ask_keeper<K: Keeper>(keeper: &K, many: u32, random: &mut Random) -> u64 {
    let places = keeper.places();
    let mut seen = 0u64;
    for _ in 0..many {
        let a = random.below(places);
        let b = random.below(places);
        seen = seen
            .wrapping_mul(31)
            .wrapping_add(keeper.least(a.min(b), a.max(b)).unwrap_or(7));
    }
    seen
}
