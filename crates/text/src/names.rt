ghost use Rattle.std.specs.Prelude.{◌≡◌, ℕ, ◌<◌, [], length, MatchResult, slice_index, slice_index_or};
ghost use Rattle.text.specs.Split.{words};
ghost use Rattle.text.specs.Tables.{names, width};
ghost use Rattle.text.specs.Columns.{Miscounted, NoNewName, Ordered, NamesFault};

use super::content::Content;
use super::table::Table;
use word::fault::{Cause, Fault, LineFault, WordFault};

/// Which word of a line stands under each name of its table, the names in the order of their definition; the rest of the four
/// are not used.
// Kept: a table stands beside its places, since in one struct the places of links would have a table that is never another.
pub type Places = [usize; 4];

/// In the place of a name that has not come yet.
// Kept: an `Option` for each place would have to be unwrapped at the end, also for columns that the table has not.
const NOWHERE: usize = 4;

/// The column of the table that a word of its line of names names, for the first time.
fn new_name(word: &[u8], table: Table, places: Places) -> Result<usize, Cause>
    ensures { MatchResult result (λ i. (i < width table) × (slice_index_or (names table) i [] ≡ word.now) × (slice_index places i < 4 → ⊥)) (λ c. NoNewName table places word.now c) }
{
    if word.is_empty() {
        return Err(WordFault::Empty.into());
    }
    let i = table.column_named(word).ok_or(LineFault::BadName)?;
    if places[i] < NOWHERE {
        return Err(LineFault::BadName.into());
    }
    Ok(i)
}

impl Content<'_> {
    /// Refuses a line with more or fewer words than columns.
    pub(crate) fn check_count(&self, columns: usize) -> Result<(), Fault>
        ensures { MatchResult result (λ _. length (words self.now.bytes.now) ≡ columns) (λ f. (f.line ≡ self.now.number) × Miscounted columns self.now.bytes.now f.cause f.column) }
    {
        let count = self.count_words();
        if count == columns {
            return Ok(());
        }
        let column = if count < columns {
            (self.bytes.len() + 1) as u32
        } else {
            self.word(columns).column
        };
        Err(self.fault(LineFault::WordCount.into(), column))
    }

    /// Reads a line of names: which of its words is which name of the table, in any order. The first fault of the line is its count
    /// of words, or else its first word that is empty, no name of the table's or a name again.
    pub(crate) fn read_names(&self, table: Table) -> Result<Places, Fault>
        ensures { MatchResult result (λ places. Ordered table (words self.now.bytes.now) places) (λ f. (f.line ≡ self.now.number) × NamesFault table self.now.bytes.now f.cause f.column) }
    {
        self.check_count(table.width())?;
        let mut places = [NOWHERE; 4];
        let mut start = 0;
        // Kept: words by number, each from where the last one ended, since the library's `split` gives the words without their columns.
        for j in 0..table.width() {
            let word = self.word_from(start);
            // Kept: a match, since with `map_err` and a closure the goals of what is returned do not close.
            match new_name(word.bytes, table, places) {
                Ok(i) => places[i] = j,
                Err(cause) => return Err(self.fault(cause, word.column)),
            }
            start += word.bytes.len() + 1;
        }
        Ok(places)
    }
}
