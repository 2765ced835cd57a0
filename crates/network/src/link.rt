ghost use Rattle.std.specs.Prelude.{◌≡◌, ℕ, ◌≤◌, MatchResult, ◌≢◌};
ghost use Rattle.network.specs.Levels.{IsLevel};
ghost use Rattle.network.specs.Rows.{Sound, Refused};

use super::level::level;
use super::refusal::RowRefusal;
use super::row::Row;

/// A link between two stations, which works either way. Every link record has two different ends and a delay of 1 to
/// 4,294,967,295 nanoseconds: no other can be made.
#[derive(Clone, Copy)]
pub struct Link {
    row: Row,
    ghost apart: { row.from ≢ row.to },
    ghost delayed: { 1 ≤ row.ns },
    ghost bounded: { row.ns ≤ 4294967295 },
}

impl Link {
    /// The link that a row describes, in a network of so many stations. Refuses, in this order: an end that is no station,
    /// equal ends, a delay of 0; and hands the row back.
    pub fn of_row(row: Row, stations: u32) -> Result<Link, RowRefusal>
        ensures { MatchResult result (λ l. Sound stations row × (l.row ≡ row)) (λ e. Refused stations row e) }
    {
        if row.from >= stations || row.to >= stations {
            return Err(RowRefusal::EndOutside(row));
        }
        if row.from == row.to {
            return Err(RowRefusal::EqualEnds(row));
        }
        if row.ns == 0 {
            return Err(RowRefusal::NoDelay(row));
        }
        Ok(Link { row })
    }

    /// One end.
    pub fn from(self) -> u32
        ensures { result ≡ self.row.from }
    {
        self.row.from
    }

    /// The other end.
    pub fn to(self) -> u32
        ensures { result ≡ self.row.to }
    {
        self.row.to
    }

    /// The delay in nanoseconds.
    pub fn ns(self) -> u32
        ensures { result ≡ self.row.ns }
    {
        self.row.ns
    }

    /// The level of the link: the i with 2^(i−1) ≤ ns < 2^i.
    pub fn level(self) -> u32
        ensures { IsLevel self.row.ns result }
    {
        level(self.row.ns)
    }
}
