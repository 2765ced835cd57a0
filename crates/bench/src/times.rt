use super::calls::{ask_keeper, drive_keeper, drive_shelf};
use super::random::Random;
use keeper::Keeper;
use keeper::table::Table;
use keeper_tree::tree::Tree;
use shelf::Shelf;
use shelf::marks::Marks;
use shelf_chains::chains::Chains;
use std::io;
use std::time::Instant;

/// How many calls are timed.
const MANY: u32 = 100000;

fn time_shelf<S: Shelf>(rt: &HostRuntime, name: &str, shelf: &mut S) -> io::Result<()> {
    let mut random = Random::new(7);
    let start = Instant::now(rt)?;
    let seen = drive_shelf(shelf, MANY, &mut random);
    let micros = start.elapsed(rt)?.as_micros();
    println!(rt;
        "{name:8} {:6} items: {MANY} puts, takes and lifts in {micros:8} us ({seen})",
        shelf.items()
    )
}

fn time_keeper<K: Keeper>(rt: &HostRuntime, name: &str, keeper: &mut K) -> io::Result<()> {
    let mut random = Random::new(7);
    let start = Instant::now(rt)?;
    let lowered = drive_keeper(keeper, MANY, &mut random);
    let changes = start.elapsed(rt)?.as_micros();
    let again = Instant::now(rt)?;
    let seen = ask_keeper(keeper, MANY, &mut random);
    let leasts = again.elapsed(rt)?.as_micros();
    println!(rt;
        "{name:8} {:6} places: {MANY} lowers and retires in {changes:8} us, {MANY} leasts in {leasts:8} us ({lowered}, {seen})",
        keeper.places()
    )
}

/// Times shelves of so many items.
fn print_shelves(rt: &HostRuntime, items: u32) -> io::Result<()> {
    let mut marks = Marks::new(rt.alloc(), items, 64)?;
    time_shelf(rt, "marks", &mut marks)?;
    let mut chains = Chains::new(rt.alloc(), items, 64)?;
    time_shelf(rt, "chains", &mut chains)
}

/// Times keepers of so many places.
fn print_keepers(rt: &HostRuntime, places: u32) -> io::Result<()> {
    let mut table = Table::new(rt.alloc(), places)?;
    time_keeper(rt, "table", &mut table)?;
    let mut tree = Tree::new(rt.alloc(), places)?;
    time_keeper(rt, "tree", &mut tree)
}

/// Times every shelf and every keeper at several sizes.
pub(crate) fn print_all(rt: &HostRuntime) -> io::Result<()> {
    for items in [64, 1024, 16384] {
        print_shelves(rt, items)?;
    }
    for places in [16, 64, 256, 1024] {
        print_keepers(rt, places)?;
    }
    Ok(())
}
