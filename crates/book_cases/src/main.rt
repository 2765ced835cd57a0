//! Histories of books, played by the library: each prints the numbers of the refusals that came, 0 where a call was granted.

#![tactic(auto)]

use book::book::Book;
use book::permit::Permit;
use book::refusal::{PermitRefusal, Refusal};
use network::row::Row;
use std::alloc::Global;

/// The number of a refusal in the table of causes.
// Kept: a number at once, since a refusal with a permit must be taken apart, and its permit ended, before its case is told.
#[derive(Clone, Copy)]
struct Cause(u8);

impl From<Refusal> for Cause {
    fn from(refusal: Refusal) -> Cause {
        Cause(refusal.number())
    }
}

/// A row.
fn row(from: u32, to: u32, ns: u32) -> Row {
    Row { from, to, ns }
}

/// Gives a permit back at home, or annuls it where that is refused.
fn end_permit(home: &mut Book, permit: Permit) {
    if let Err(refused) = home.give_back(permit) {
        home.annul(refused.permit()).unwrap();
    }
}

/// Withdraws a link and makes a call with its permit, which ends at home where it comes back. Where there is no such permit, no call is
/// made and none refused.
fn with_permit<F: FnOnce(&mut Book, Permit) -> Result<(), PermitRefusal>>(
    home: &mut Book,
    link: u32,
    call: F,
) -> Result<(), Cause>
    requires { F.IsAlwaysCallable call }
{
    let Ok(permit) = home.withdraw(link) else {
        return Ok(());
    };
    let Err(refused) = call(home, permit) else {
        return Ok(());
    };
    let cause = Cause(refused.number());
    end_permit(home, refused.permit());
    Err(cause)
}

/// Withdraws a link and gives it back.
fn withdraw(book: &mut Book, link: u32) -> Result<(), Cause> {
    let permit = book.withdraw(link)?;
    end_permit(book, permit);
    Ok(())
}

/// Strikes a link.
fn strike(book: &mut Book, link: u32) -> Result<(), Cause> {
    let permit = book.withdraw(link)?;
    book.strike(permit).unwrap();
    Ok(())
}

/// Withdraws a link twice.
fn withdraw_twice(book: &mut Book, link: u32) -> Result<(), Cause> {
    let Ok(permit) = book.withdraw(link) else {
        return Ok(());
    };
    let again = withdraw(book, link);
    end_permit(book, permit);
    again
}

/// Offers the permit of one book to another.
fn to_another_book(home: &mut Book, other: &mut Book, link: u32) -> Result<(), Cause> {
    with_permit(home, link, |_, permit| other.give_back(permit))
}

/// Annuls a permit that could be given back.
fn annul_too_soon(book: &mut Book, link: u32) -> Result<(), Cause> {
    with_permit(book, link, |book, permit| book.annul(permit))
}

/// Gives back a permit of an earlier opening, whose link is in service now.
fn of_an_earlier_opening(
    book: &mut Book,
    heap: Global,
    number: u32,
    rows: &[Row],
) -> Result<(), Cause> {
    with_permit(book, 0, |book, permit| {
        let _ = book.open(heap, number, 5, rows);
        book.give_back(permit)
    })
}

/// Gives back a permit of an earlier opening after the link was struck in this one.
fn after_a_strike(book: &mut Book, heap: Global, rows: &[Row]) -> Result<(), Cause> {
    with_permit(book, 0, |book, permit| {
        let _ = book.open(heap, 7, 5, rows);
        let _ = strike(book, 0);
        book.give_back(permit)
    })
}

/// Prints what came of a call: the number of its refusal, 0 where it was granted.
fn tell(rt: &HostRuntime, what: &str, outcome: Result<(), Cause>) -> anyhow::Result<()> {
    let number = outcome.map_or_else(|cause| cause.0, |()| 0);
    println!(rt; "{what}: {number}")?;
    Ok(())
}

/// Prints what came of an opening.
fn tell_opening(
    rt: &HostRuntime,
    what: &str,
    place: &mut Book,
    stations: u32,
    rows: &[Row],
) -> anyhow::Result<()> {
    let outcome = place.open(rt.alloc(), 1, stations, rows);
    tell(rt, what, outcome.map_err(Cause::from))
}

/// Openings at and past the limits.
fn openings(rt: &HostRuntime, place: &mut Book) -> anyhow::Result<()> {
    let link = row(0, 1, 3);
    let many = vec![in rt.alloc(); link; 2049]?;
    let most = &many[..2048];
    tell_opening(rt, "0 stations", place, 0, most)?;
    tell_opening(rt, "513 stations", place, 513, most)?;
    tell_opening(rt, "2049 rows", place, 512, many.as_slice())?;
    tell_opening(rt, "512 stations and 2048 rows", place, 512, most)
}

/// Rows that describe no link.
fn bad_rows(rt: &HostRuntime, place: &mut Book) -> anyhow::Result<()> {
    let outside = [row(0, 5, 0)];
    let equal = [row(2, 2, 0)];
    let timeless = [row(0, 1, 3), row(0, 1, 0)];
    tell_opening(rt, "an end that is no station", place, 5, &outside)?;
    tell_opening(rt, "equal ends", place, 5, &equal)?;
    tell_opening(rt, "no delay", place, 5, &timeless)
}

/// Links out of service and their permits.
fn permits(
    rt: &HostRuntime,
    book: &mut Book,
    other: &mut Book,
    rows: &[Row],
) -> anyhow::Result<()> {
    let heap = rt.alloc();
    let _ = book.open(heap, 7, 5, rows);
    let _ = other.open(heap, 8, 5, rows);
    tell(rt, "withdraw a link that is not there", withdraw(book, 2))?;
    tell(rt, "withdraw twice", withdraw_twice(book, 0))?;
    let elsewhere = to_another_book(book, other, 0);
    tell(rt, "a permit of another book for the same link", elsewhere)?;
    let soon = annul_too_soon(book, 0);
    tell(rt, "annul a permit that could be given back", soon)?;
    let earlier = of_an_earlier_opening(book, heap, 7, rows);
    tell(rt, "a permit of an earlier opening", earlier)?;
    let renamed = of_an_earlier_opening(book, heap, 9, rows);
    tell(
        rt,
        "a permit of an earlier opening under another number",
        renamed,
    )?;
    let _ = book.open(heap, 7, 5, rows);
    tell(
        rt,
        "give back after strike",
        after_a_strike(book, heap, rows),
    )?;
    tell(rt, "withdraw a struck link", withdraw(book, 0))
}

fn main(rt: HostRuntime) -> anyhow::Result<()> {
    let mut place = Book::new(rt.alloc())?;
    let mut other = Book::new(rt.alloc())?;
    let rows = [row(0, 1, 3), row(1, 2, 4)];
    openings(&rt, &mut place)?;
    bad_rows(&rt, &mut place)?;
    permits(&rt, &mut place, &mut other, &rows)
}
