//! The program: reads a sheet from standard input, opens its book, takes the links that are off out of service for good, and prints
//! the book's links with their levels; or prints the sheet's first fault.

#![tactic(auto)]

use anyhow::bail;
use book::book::Book;
use book::refusal::Refusal;
use std::alloc::Global;
use std::io::Read;
use text::read::read_sheet;
use text::sheet::{Head, SheetLink};
use word::fault::Fault;
use word::state::State;

/// How many links a sheet may list.
const MOST_LINKS: usize = 2048;

/// Prints the table of the book's links, one line for each.
fn print_links(rt: &HostRuntime, book: &Book) -> anyhow::Result<()> {
    println!(rt; "link;from;to;ns;level;state")?;
    // Kept: a range of numbers, since the book answers for a link by its number and lends no list of its own.
    for number in 0..book.links() {
        let Some(link) = book.link(number) else {
            break;
        };
        let state = if book.in_service(number) {
            State::In
        } else {
            State::Off
        };
        println!(rt;
            "{number};{};{};{};{};{state}",
            link.from(),
            link.to(),
            link.ns(),
            link.level()
        )?;
    }
    Ok(())
}

/// Prints a fault, and answers an error, so that the program ends with status 1.
fn print_fault(rt: &HostRuntime, fault: Fault) -> anyhow::Result<()> {
    println!(rt; "cause;layer;line;column")?;
    println!(rt; "{fault}")?;
    bail!("the sheet is refused")
}

/// Takes a link out of service for good.
fn strike_out(book: &mut Book, link: u32) -> Result<(), Refusal> {
    let permit = book.withdraw(link)?;
    book.strike(permit).unwrap();
    Ok(())
}

/// Opens a book with the sheet's links, and takes those that are `off` out of service for good.
fn open_book(heap: Global, head: Head, links: &[SheetLink]) -> Result<Book, Refusal> {
    let rows: Vec<_> = links.iter().map(|link| link.row).collect(heap)?;
    let mut book = Book::new(heap)?;
    book.open(heap, head.book, head.stations, rows.as_slice())?;
    for (number, link) in (0u32..).zip(links) {
        if link.state == State::Off {
            strike_out(&mut book, number)?;
        }
    }
    Ok(book)
}

/// Opens the book of a sheet and prints its links.
fn print_book(rt: &HostRuntime, head: Head, links: &[SheetLink]) -> anyhow::Result<()> {
    let Ok(book) = open_book(rt.alloc(), head, links) else {
        bail!("the book cannot be opened")
    };
    print_links(rt, &book)
}

fn main(rt: HostRuntime) -> anyhow::Result<()> {
    let mut text = Vec::new(rt.alloc());
    rt.stdin().read_to_end(&mut text)?;
    let mut links = vec![in rt.alloc(); SheetLink::default(); MOST_LINKS]?;
    let reading = read_sheet(text.as_slice(), links.as_mut_slice());
    match reading.outcome {
        Ok(head) => print_book(&rt, head, &links[..reading.links]),
        Err(fault) => print_fault(&rt, fault),
    }
}
