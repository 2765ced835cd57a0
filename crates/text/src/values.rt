ghost use Rattle.std.specs.Prelude.{◌≡◌, ℕ, ◌<◌, MatchResult, unwrap_or};
ghost use Rattle.text.specs.Split.{words};
ghost use Rattle.text.specs.Stored.{Stored};
ghost use Rattle.text.specs.Tables.{width, state_at};
ghost use Rattle.text.specs.Values.{WrongWord, ValuesRead, ValuesFault};

use super::content::Content;
use super::names::Places;
use super::table::Table;
use word::fault::{Fault, WordFault};
use word::numeral::number;
use word::state::State;

/// The values of a line by place: its numbers, and its state, if it has one.
#[derive(Clone, Copy, Debug, Default, PartialEq, Eq)]
pub struct Values {
    pub numbers: [u32; 4],
    // Kept: a table without states has the default here; an `Option` would be unwrapped for each link, which always has a state.
    pub state: State,
}

impl Table {
    /// Where the state stands among the words of a line of values, if the table has one.
    fn state_at(self, places: Places) -> Option<usize>
        ensures { unwrap_or result 4 ≡ state_at self places }
    {
        match self {
            Table::Book => None,
            Table::Links => Some(places[3]),
        }
    }
}

/// Reads the word at the place `j` into the values.
fn read_word(
    word: &[u8],
    j: usize,
    state_at: Option<usize>,
    values: &mut Values,
) -> Result<(), WordFault>
    requires { j < 4 }
    ensures { MatchResult result (λ _. Stored (unwrap_or state_at 4) j word.now values.old values.new) (λ fault. WrongWord (unwrap_or state_at 4) j word.now fault) }
{
    if state_at == Some(j) {
        values.state = State::try_from(word)?;
    } else {
        values.numbers[j] = number(word)?;
    }
    Ok(())
}

impl Content<'_> {
    /// Reads a line of values: a state at its place, if the table has one, and numbers at all others. The first fault of the line
    /// is its count of words, or else its first word that spells no such value.
    pub(crate) fn read_values(&self, table: Table, places: Places) -> Result<Values, Fault>
        ensures { MatchResult result (λ v. ValuesRead (width table) (state_at table places) (words self.now.bytes.now) v) (λ f. (f.line ≡ self.now.number) × ValuesFault (width table) (state_at table places) self.now.bytes.now f.cause f.column) }
    {
        self.check_count(table.width())?;
        let state_at = table.state_at(places);
        let mut values = Values::default();
        let mut start = 0;
        // Kept: words by number, each from where the last one ended, since the library's `split` gives the words without their columns.
        for j in 0..table.width() {
            let word = self.word_from(start);
            // Kept: a test, since with `map_err` and a closure the goals of what is returned do not close.
            if let Err(fault) = read_word(word.bytes, j, state_at, &mut values) {
                return Err(self.fault(fault.into(), word.column));
            }
            start += word.bytes.len() + 1;
        }
        Ok(values)
    }
}
