ghost use Rattle.text.specs.Sheet.{Placed};

use super::content::Content;
use super::cursor::Cursor;
use super::line::Role;
use super::names::Places;
use super::sheet::SheetLink;
use super::table::Table;
use super::values::Values;
use network::row::Row;
use word::fault::{Fault, TableFault};

/// Which word of a line of links stands under each of the four names.
#[derive(Clone, Copy)]
pub(crate) struct LinkPlaces {
    pub(crate) places: Places,
    ghost placed: { Placed places },
}

impl LinkPlaces {
    ghost use Rattle.std.specs.Prelude.{◌≡◌, true, false, MatchResult, slice_index};
    ghost use Rattle.text.specs.Split.{words};
    ghost use Rattle.text.specs.Sheet.{SpelledLink, WrongRow};

    /// The link that the values of a line spell.
    fn link_of(self, values: Values) -> SheetLink
        ensures { (result.row.from ≡ slice_index values.numbers (slice_index self.places 0)) × (result.row.to ≡ slice_index values.numbers (slice_index self.places 1)) × (result.row.ns ≡ slice_index values.numbers (slice_index self.places 2)) × (result.state ≡ values.state) }
    {
        let [from, to, ns, _] = self.places;
        SheetLink {
            row: Row {
                from: values.numbers[from],
                to: values.numbers[to],
                ns: values.numbers[ns],
            },
            state: values.state,
        }
    }

    /// The link that a line spells, unless it is one line too many.
    fn read_row(self, line: &Content, full: bool) -> Result<SheetLink, Fault>
        ensures { MatchResult result (λ link. (full ≡ false) × SpelledLink self.places (words line.now.bytes.now) link) (λ f. (f.line ≡ line.now.number) × WrongRow self.places (full ≡ true) line.now.bytes.now f.cause f.column) }
    {
        if full {
            return Err(line.fault(TableFault::TooManyLines.into(), 1));
        }
        let values = line.read_values(Table::Links, self.places)?;
        Ok(self.link_of(values))
    }
}

impl Cursor<'_> {
    ghost use Rattle.std.specs.Prelude.{◌≡◌, ◌≤◌, true, false, length, MatchOption, MatchResult};
    ghost use Rattle.text.specs.Split.{lines, words};
    ghost use Rattle.text.specs.Due.{AtLine};
    ghost use Rattle.text.specs.Cursors.{text_of, next, NextStands, Moved};
    ghost use Rattle.text.specs.Sheet.{SpelledLink, RowFault, RowsRead, RowsEnd};

    /// The next line of links, if the text has another line: it must not be empty.
    fn next_row(&mut self, places: LinkPlaces, full: bool) -> Result<Option<SheetLink>, Fault>
        ensures { MatchResult result
            (λ o. MatchOption o (length (lines (text_of self.old)) ≤ self.old.line) (λ link. NextStands self.old × (full ≡ false) × SpelledLink places.places (words (next self.old)) link × Moved self.old self.new))
            (λ f. AtLine self.old.line f (RowFault (text_of self.old) places.places (full ≡ true) self.old.line)) }
    {
        let Some(line) = self.next_content(Role::AsValues)? else {
            return Ok(None);
        };
        let link = places.read_row(&line, full)?;
        Ok(Some(link))
    }

    /// Reads lines of links to the text's end, into the memory given, and counts them.
    pub(crate) fn read_rows(
        &mut self,
        places: LinkPlaces,
        links: &mut [SheetLink],
        count: &mut usize,
    ) -> Result<(), Fault>
        requires fifth { self.old.line ≡ 4 }
        requires none { count.old ≡ 0 }
        ensures read { RowsRead (text_of self.old) places.places links.old links.new count.new }
        ensures end { RowsEnd (text_of self.old) places.places links.old count.new result }
    {
        let most = links.len().min(2048);
        while let Some(link) = self.next_row(places, *count == most)? {
            links[*count] = link;
            *count += 1;
        }
        Ok(())
    }
}
