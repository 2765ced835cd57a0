use super::random::Random;
use keeper::Keeper;
use keeper::table::Table;
use keeper_tree::tree::Tree;
use shelf::Shelf;
use shelf::marks::Marks;
use shelf_chains::chains::Chains;
use std::io;

/// One take, made on `a` and followed on `b`: the item that `a` hands over stood in that bucket of `b` too; where `a` has none, `b`
/// has none. Answers whether the two agree.
fn same_take<A: Shelf, B: Shelf>(a: &mut A, b: &mut B, bucket: u32) -> bool {
    match a.take(bucket) {
        Some(item) => {
            let there = b.bucket_of(item) == Some(bucket);
            b.lift(item);
            there
        }
        None => b.take(bucket).is_none(),
    }
}

/// One random call on both shelves, and whether they agree. One call in `clears` is a clear; with 0, none is.
fn same_call<A: Shelf, B: Shelf>(a: &mut A, b: &mut B, clears: u32, random: &mut Random) -> bool {
    let item = random.below(a.items().saturating_add(2));
    let bucket = random.below(a.buckets().saturating_add(2));
    if clears > 0 && random.below(clears) == 0 {
        a.clear();
        b.clear();
    }
    // Kept: a roll is matched where it picks the call, since an enum of calls would be made by this same match, and then matched once more.
    let same = match random.below(6) {
        0..=2 => a.put(item, bucket) == b.put(item, bucket),
        3 => same_take(a, b, bucket),
        4 => same_take(b, a, bucket),
        _ => {
            a.lift(item);
            b.lift(item);
            true
        }
    };
    same && a.bucket_of(item) == b.bucket_of(item) && a.count() == b.count()
}

/// How many of so many random calls two shelves answer alike.
fn shelves_alike<A: Shelf, B: Shelf>(a: &mut A, b: &mut B, many: u32, clears: u32) -> usize {
    let mut random = Random::new(2026);
    (0..many)
        .filter(|_| same_call(a, b, clears, &mut random))
        .count()
}

/// One random call on both keepers, and whether they agree on it and on the least of all.
fn same_least<A: Keeper, B: Keeper>(a: &mut A, b: &mut B, random: &mut Random) -> bool {
    let range = a.places().saturating_add(3);
    let place = random.below(range);
    let other = random.below(range);
    let d = u64::from(random.below(50));
    // Kept: a roll is matched where it picks the call, since an enum of calls would be made by this same match, and then matched once more.
    let same = match random.below(400) {
        0 => {
            a.clear();
            b.clear();
            true
        }
        1..=99 => {
            a.retire(place);
            b.retire(place);
            true
        }
        100..=249 => a.lower(place, d) == b.lower(place, d),
        _ => a.least(place, other) == b.least(place, other),
    };
    same && a.least(0, u32::MAX) == b.least(0, u32::MAX)
}

/// How many of so many random calls two keepers answer alike.
fn keepers_alike<A: Keeper, B: Keeper>(a: &mut A, b: &mut B, many: u32) -> usize {
    let mut random = Random::new(1118);
    (0..many).filter(|_| same_least(a, b, &mut random)).count()
}

fn print_shelves(
    rt: &HostRuntime,
    items: u32,
    buckets: u32,
    many: u32,
    clears: u32,
) -> io::Result<()> {
    let mut chains = Chains::new(rt.alloc(), items, buckets)?;
    let mut marks = Marks::new(rt.alloc(), items, buckets)?;
    let alike = shelves_alike(&mut chains, &mut marks, many, clears);
    println!(rt;
        "{items} items, {buckets} buckets: chains and marks agree on {alike} of {many} calls; the last count is {}",
        marks.count()
    )
}

fn print_keepers(rt: &HostRuntime, places: u32, many: u32) -> io::Result<()> {
    let mut table = Table::new(rt.alloc(), places)?;
    let mut tree = Tree::new(rt.alloc(), places)?;
    let alike = keepers_alike(&mut table, &mut tree, many);
    println!(rt; "{places} places: table and tree agree on {alike} of {many} calls")
}

/// Compares shelves and keepers of several sizes, and lets the count of puts reach its end once.
pub(crate) fn print_all(rt: &HostRuntime) -> io::Result<()> {
    for (items, buckets, many, clears) in [
        (1, 1, 1000, 50),
        (10, 3, 10000, 500),
        (100, 40, 10000, 500),
        (50, 20, 400000, 0),
    ] {
        print_shelves(rt, items, buckets, many, clears)?;
    }
    for (places, many) in [(0, 100), (1, 1000), (6, 5000), (64, 5000), (100, 5000)] {
        print_keepers(rt, places, many)?;
    }
    Ok(())
}
