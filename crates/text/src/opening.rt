ghost use Rattle.std.specs.Prelude.{◌≡◌, ℕ, ◌+◌, ◌<◌, ◌≤◌, length, MatchResult, slice_index};
ghost use Rattle.network.specs.Refusals.{shown};
ghost use Rattle.network.specs.Rows.{Why};
ghost use Rattle.text.specs.Split.{lines, words};
ghost use Rattle.text.specs.Due.{line as line_of};
ghost use Rattle.text.specs.Opening.{AtWord, WordAtFault, AllSound, RowRefused, FairNumber, BookRefused};

use super::content::Content;
use super::heading::Heading;
use super::names::Places;
use super::sheet::SheetLink;
use super::source::Source;
use super::split::{Stop, piece_end, piece_start};
use network::link::Link;
use network::refusal::RowRefusal;
use word::fault::{BookFault, Cause, Fault};

/// Which word of a refused row's line is at fault.
fn word_at_fault(refusal: RowRefusal, stations: u32, places: Places) -> usize
    requires { Why stations (shown refusal).row refusal }
    ensures { WordAtFault stations places refusal result }
{
    match refusal {
        RowRefusal::EndOutside(row)
            if row.from >= stations && (row.to < stations || places[0] <= places[1]) => {
            places[0]
        }
        RowRefusal::EndOutside(_) | RowRefusal::EqualEnds(_) => places[1],
        RowRefusal::NoDelay(_) => places[2],
    }
}

impl<'a> Source<'a> {
    /// The line `i` of the text.
    fn line(&self, i: usize) -> Content<'a>
        requires { i < length (lines self.now.bytes.now) }
        ensures { (result.bytes.now ≡ line_of self.now.bytes.now i) × (result.number ≡ i + 1) }
    {
        let start = piece_start(self.bytes, i, Stop::AtLineFeed);
        let end = piece_end(self.bytes, start, Stop::AtLineFeed);
        Content {
            bytes: &self.bytes[start..end],
            number: (i + 1) as u32,
        }
    }

    /// The fault that shows at the word `j` of the line `i`.
    fn fault_at_word(&self, i: usize, j: usize, cause: Cause) -> Fault
        requires line { i < length (lines self.now.bytes.now) }
        requires word { j < length (words (line_of self.now.bytes.now i)) }
        ensures cause { result.cause ≡ cause }
        ensures shown { AtWord self.now.bytes.now i j result }
    {
        let line = self.line(i);
        line.fault(cause, line.word(j).column)
    }

    /// Checks that the links that were read are links of a network of so many stations.
    fn check_links(&self, stations: u32, places: Places, links: &[SheetLink]) -> Result<(), Fault>
        requires listed { 4 + length links.now ≤ length (lines self.now.bytes.now) }
        requires words { (k j : ℕ) → k < length links.now → j < 4 → slice_index places j < length (words (line_of self.now.bytes.now (4 + k))) }
        ensures { MatchResult result (λ _. AllSound stations links.now (length links.now)) (λ f. RowRefused self.now.bytes.now places stations links.now (length links.now) f) }
    {
        for (k, link) in links.iter().enumerate() {
            // Kept: a test, since a closure under `map_err` would need the bounds of the text and of the word in clauses of its own.
            if let Err(refusal) = Link::of_row(link.row, stations) {
                let word = word_at_fault(refusal, stations, places);
                return Err(self.fault_at_word(4 + k, word, BookFault::Row(refusal).into()));
            }
        }
        Ok(())
    }

    /// Checks what the book asks of a sheet: 1 to 512 stations, and then row by row that it describes a link.
    pub(crate) fn check_book(&self, heading: Heading, links: &[SheetLink]) -> Result<(), Fault>
        requires listed { 4 + length links.now ≤ length (lines self.now.bytes.now) }
        requires head { slice_index heading.book_places 1 < length (words (line_of self.now.bytes.now 1)) }
        requires words { (k j : ℕ) → k < length links.now → j < 4 → slice_index heading.link_places.places j < length (words (line_of self.now.bytes.now (4 + k))) }
        ensures { MatchResult result (λ _. FairNumber heading.head.stations × AllSound heading.head.stations links.now (length links.now)) (λ f. BookRefused self.now.bytes.now heading.book_places heading.link_places.places heading.head.stations links.now (length links.now) f) }
    {
        let stations = heading.head.stations;
        if !(1..=512).contains(&stations) {
            return Err(self.fault_at_word(1, heading.book_places[1], BookFault::Stations.into()));
        }
        self.check_links(stations, heading.link_places.places, links)
    }
}
