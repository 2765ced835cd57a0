ghost use Rattle.std.specs.Prelude.{◌≡◌};
ghost use Rattle.text.specs.Read.{ReadAs};

use super::cursor::Cursor;
use super::sheet::{Head, Reading, SheetLink};
use super::source::Source;
use word::fault::Fault;

/// Reads the two tables of a sheet, the book's and the links', into the memory given. The links that were read stand at its start,
/// also where a fault came after them, and the rest of it stays.
pub fn read_sheet(text: &[u8], links: &mut [SheetLink]) -> Reading
    ensures { ReadAs text.now links.old links.new result }
{
    let mut count = 0;
    let outcome = read_tables(text, links, &mut count);
    Reading {
        links: count,
        outcome,
    }
}

/// Reads a sheet's tables, counts the links that were read, and checks what the book asks of them.
// Kept: a count beside the links, since a fault must leave it standing: an `Err` drops all that a value would hold.
fn read_tables(text: &[u8], links: &mut [SheetLink], count: &mut usize) -> Result<Head, Fault>
    requires { count.old ≡ 0 }
    ensures { ReadAs text.now links.old links.new (record { links = count.new; outcome = result }) }
{
    let source = Source::new(text)?;
    let mut cursor = Cursor::new(source);
    let heading = cursor.read_heading()?;
    cursor.read_rows(heading.link_places, links, count)?;
    source.check_book(heading, &links[..*count])?;
    Ok(heading.head)
}
