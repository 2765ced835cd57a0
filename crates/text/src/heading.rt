ghost use Rattle.std.specs.Prelude.{◌≡◌, ◌<◌, MatchResult, slice_index};
ghost use Rattle.text.specs.Cursors.{text_of};
ghost use Rattle.text.specs.Sheet.{BookTable, Headed, HeadingFault};

use super::cursor::Cursor;
use super::names::Places;
use super::rows::LinkPlaces;
use super::sheet::Head;
use super::table::Table;
use super::values::Values;
use word::fault::Fault;

/// The head of a sheet, and where the names of its two tables stand.
#[derive(Clone, Copy)]
pub(crate) struct Heading {
    pub(crate) head: Head,
    pub(crate) book_places: Places,
    pub(crate) link_places: LinkPlaces,
}

/// The head that the values of the first table spell, under names with these places.
fn head_of(values: Values, places: Places) -> Head
    requires { (slice_index places 0 < 4) × (slice_index places 1 < 4) }
    ensures { (result.book ≡ slice_index values.numbers (slice_index places 0)) × (result.stations ≡ slice_index values.numbers (slice_index places 1)) }
{
    Head {
        book: values.numbers[places[0]],
        stations: values.numbers[places[1]],
    }
}

impl Cursor<'_> {
    /// Reads the first table, and gives also the places of its names.
    fn read_book(&mut self) -> Result<(Head, Places), Fault>
        requires { self.old.line ≡ 0 }
        ensures { MatchResult result (λ p. BookTable (text_of self.old) p.1 p.0 × (self.new.line ≡ 2) × (self.new.source ≡ self.old.source)) (λ f. HeadingFault (text_of self.old) f) }
    {
        let places = self.names_line(Table::Book)?;
        let values = self.values_line(Table::Book, places)?;
        Ok((head_of(values, places), places))
    }

    /// Reads a sheet up to the names of its second table.
    pub(crate) fn read_heading(&mut self) -> Result<Heading, Fault>
        requires { self.old.line ≡ 0 }
        ensures { MatchResult result (λ h. Headed (text_of self.old) h.book_places h.link_places.places h.head × (self.new.line ≡ 4) × (self.new.source ≡ self.old.source)) (λ f. HeadingFault (text_of self.old) f) }
    {
        let (head, book_places) = self.read_book()?;
        self.divider_line()?;
        let places = self.names_line(Table::Links)?;
        Ok(Heading {
            head,
            book_places,
            link_places: LinkPlaces { places },
        })
    }
}
