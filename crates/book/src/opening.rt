ghost use Rattle.std.specs.Prelude.{◌≡◌, ℕ, ◌<◌, ◌≤◌, length, map, IfOk, MatchResult};
ghost use Rattle.book.specs.Matter.{matter, fresh, unopened};
ghost use Rattle.book.specs.Calls.{AllSound, AllBounded, FirstBad, Opens};

use super::book::Book;
use super::refusal::Refusal;
use super::stage::Stage;
use network::entry::{Entry, Standing};
use network::link::Link;
use network::refusal::RowRefusal;
use network::row::Row;
use network::scheme::Scheme;
use std::alloc::{AllocError, Global};

/// Refuses the first row that describes no link of a network of so many stations.
fn check_rows(stations: u32, rows: &[Row]) -> Result<(), RowRefusal>
    ensures first { MatchResult result (λ _. AllSound stations rows.now (length rows.now)) (λ why. FirstBad stations rows.now why) }
    ensures bounded { IfOk result (λ _. AllBounded rows.now (length rows.now)) }
{
    for row in rows {
        Link::of_row(*row, stations)?;
    }
    Ok(())
}

/// The links that rows describe, all in service.
fn links_of(heap: Global, rows: &[Row]) -> Result<Vec<Entry>, AllocError>
    ensures { IfOk result (λ links. links.items ≡ map fresh rows.now) }
{
    let mut links = Vec::with_capacity(heap, rows.len())?;
    // Kept: room for all at once and a loop, since `collect` moves each link through memory once more, at two and a half times the old cost of an opening.
    for &row in rows {
        links.push_reserved(Entry {
            row,
            standing: Standing::In,
        });
    }
    Ok(links)
}

impl Book {
    /// A place for a book. It holds a bare book of number 0 with one station and no link.
    pub fn new(heap: Global) -> Result<Book, AllocError>
        ensures { IfOk result (λ b. matter b ≡ unopened) }
    {
        Ok(Book {
            number: 0,
            scheme: Scheme {
                stations: 1,
                links: Vec::new(heap),
            },
            stage: Stage::Bare,
        })
    }

    /// Opens a book in this place: bare, with all links in service. Refuses, in this order, a number of stations that is 0 or above
    /// 512, more than 2,048 rows, and then the first row that describes no link; the place is then as it was. All memory that the
    /// book will need is reserved before the place changes.
    pub fn open(
        &mut self,
        heap: Global,
        number: u32,
        stations: u32,
        rows: &[Row],
    ) -> Result<(), Refusal>
        ensures { Opens (matter self.old) number stations rows.now result (matter self.new) }
    {
        if !(1..=512).contains(&stations) {
            return Err(Refusal::Stations);
        }
        if rows.len() > 2048 {
            return Err(Refusal::TooManyRows);
        }
        check_rows(stations, rows)?;
        let links = links_of(heap, rows)?;
        *self = Book {
            number,
            scheme: Scheme { stations, links },
            stage: Stage::Bare,
        };
        Ok(())
    }
}
