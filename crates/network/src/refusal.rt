ghost use Rattle.std.specs.Prelude.{◌≡◌, Some};
ghost use Rattle.network.specs.Refusals.{said, shown};

use super::row::Row;
use std::error::Error;
use std::fmt;

/// Why a row is refused. Each case hands the row back.
#[derive(Clone, Copy, Debug, PartialEq, Eq)]
pub enum RowRefusal {
    /// an end is no station
    EndOutside(Row),
    /// both ends are the same station
    EqualEnds(Row),
    /// the delay is 0
    NoDelay(Row),
}

impl RowRefusal {
    /// The number that stands for the refusal in the table of causes.
    // Kept: the numbers are the table's own and are printed; a case that holds a row has no number to be cast to.
    pub fn number(self) -> u8
        ensures { result ≡ (shown self).number }
    {
        match self {
            RowRefusal::EndOutside(_) => 3,
            RowRefusal::EqualEnds(_) => 4,
            RowRefusal::NoDelay(_) => 5,
        }
    }

    /// The row that was refused.
    pub fn row(self) -> Row
        ensures { result ≡ (shown self).row }
    {
        match self {
            RowRefusal::EndOutside(row) | RowRefusal::EqualEnds(row) | RowRefusal::NoDelay(row) =>
                row,
        }
    }
}

/// A refusal is said in plain words.
// Kept: written by hand, since it states its bytes, which a derived error does not.
impl fmt::Display for RowRefusal {
    ghost output = { λ refusal. Some (said refusal) };

    fn fmt<W: fmt::Write>(&self, f: &mut fmt::Formatter<W>) -> fmt::Result {
        f.write_str(match self {
            RowRefusal::EndOutside(_) => "an end is no station",
            RowRefusal::EqualEnds(_) => "both ends are the same station",
            RowRefusal::NoDelay(_) => "the delay is 0",
        })
    }
}

impl Error for RowRefusal {}
