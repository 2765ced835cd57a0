ghost use Rattle.std.specs.Prelude.{◌≡◌, ℕ, ◌<◌, [], MatchOption, slice_index_or};
ghost use Rattle.text.specs.Tables.{names, width, Named};

/// The tables of a sheet.
#[derive(Clone, Copy, Debug, PartialEq, Eq)]
pub enum Table {
    /// the book's number and how many stations it has
    Book,
    /// the links: their ends, their delay and their state
    Links,
}

impl Table {
    /// How many columns the table has.
    pub(crate) fn width(self) -> usize
        ensures { result ≡ width self }
    {
        match self {
            Table::Book => 2,
            Table::Links => 4,
        }
    }

    /// Which of the table's columns, in the order of their definition, has this name.
    // Kept: patterns, since for `position` in a list of the names the proof did not close.
    pub(crate) fn column_named(self, word: &[u8]) -> Option<usize>
        ensures { MatchOption result (Named self word.now → ⊥) (λ i. (i < width self) × (slice_index_or (names self) i [] ≡ word.now)) }
    {
        match (self, word) {
            (Table::Book, b"book") => Some(0),
            (Table::Book, b"stations") => Some(1),
            (Table::Links, b"from") => Some(0),
            (Table::Links, b"to") => Some(1),
            (Table::Links, b"ns") => Some(2),
            (Table::Links, b"state") => Some(3),
            _ => None,
        }
    }
}
