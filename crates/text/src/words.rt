ghost use Rattle.std.specs.Prelude.{◌≡◌, ℕ, ◌+◌, ◌<◌, ◌≤◌, [], length, slice_index_or};
ghost use Rattle.text.specs.Split.{words, column_of, WordAt};

use super::content::Content;
use super::split::{Stop, count_stops, piece_end, piece_start};

/// A word of a line, which borrows its bytes, and its column: the place of its first byte, counted from 1.
#[derive(Clone, Copy, Debug, PartialEq, Eq)]
pub struct Word<'a> {
    pub bytes: &'a [u8],
    pub column: u32,
}

impl<'a> Content<'a> {
    /// How many words the line has.
    pub(crate) fn count_words(&self) -> usize
        ensures { result ≡ length (words self.now.bytes.now) }
    {
        count_stops(self.bytes, Stop::AtSeparator) + 1
    }

    /// The word `j` of the line.
    pub(crate) fn word(&self, j: usize) -> Word<'a>
        requires { j < length (words self.now.bytes.now) }
        ensures bytes { result.bytes.now ≡ slice_index_or (words self.now.bytes.now) j [] }
        ensures column { result.column ≡ column_of (words self.now.bytes.now) j }
    {
        let start = piece_start(self.bytes, j, Stop::AtSeparator);
        self.word_from(start)
    }

    /// The word of the line that begins at `start`. Where the word `j` begins there, the next one begins behind the byte that ends it.
    pub(crate) fn word_from(&self, start: usize) -> Word<'a>
        requires { start ≤ length self.now.bytes.now }
        ensures within { start + length result.bytes.now ≤ length self.now.bytes.now }
        ensures column { result.column ≡ start + 1 }
        ensures bytes { (j : ℕ) → WordAt self.now.bytes.now j start → result.bytes.now ≡ slice_index_or (words self.now.bytes.now) j [] }
        ensures next { (j : ℕ) → WordAt self.now.bytes.now j start → j + 1 < length (words self.now.bytes.now) → WordAt self.now.bytes.now (j + 1) (start + (length result.bytes.now + 1)) }
    {
        let end = piece_end(self.bytes, start, Stop::AtSeparator);
        Word {
            bytes: &self.bytes[start..end],
            column: (start + 1) as u32,
        }
    }
}
