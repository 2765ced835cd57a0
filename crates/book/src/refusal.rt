ghost use Rattle.std.specs.Prelude.{◌≡◌, Some};
ghost use Rattle.book.specs.Refusals.{said, number_of, permit_number, permit_back};
ghost use Rattle.book.specs.declared.refusal.Refusal.TheVariants.{BadRow, NoMemory};

use super::permit::Permit;
use network::refusal::RowRefusal;
use std::alloc::AllocError;
use std::error::Error;
use std::fmt;

/// Why a call on a book is refused, where the refusal keeps no permit.
#[derive(Clone, Copy, Debug, PartialEq, Eq)]
pub enum Refusal {
    /// there are no stations, or more than 512
    Stations,
    /// there are more than 2,048 rows
    TooManyRows,
    /// a row describes no link; it comes back
    BadRow(RowRefusal),
    /// the book has no link of that number
    NoSuchLink,
    /// the link is not in service
    NotInService,
    /// the book has its map already
    MapStands,
    /// the book has no map
    NoMap,
    /// nothing is settled
    NothingSettled,
    /// memory was wanting, which only opening can meet
    NoMemory,
}

/// Why a call with a permit is refused; the permit comes back.
#[derive(Debug, Drop)]
pub enum PermitRefusal {
    /// it is of another book's number
    OtherBook(Permit),
    /// its link is no link, or not out, or out for good
    NotOut(Permit),
    /// it cannot be annulled, since it could be given back
    StillGood(Permit),
}

impl Refusal {
    /// The number of the refusal in the table of causes; want of memory has 0.
    // Kept: the numbers are the table's own and are printed; a case that holds a row's refusal has no number to be cast to.
    pub fn number(self) -> u8
        ensures { result ≡ number_of self }
    {
        match self {
            Refusal::Stations => 1,
            Refusal::TooManyRows => 2,
            Refusal::BadRow(refusal) => refusal.number(),
            Refusal::NoSuchLink => 6,
            Refusal::NotInService => 7,
            Refusal::MapStands => 11,
            Refusal::NoMap => 12,
            Refusal::NothingSettled => 16,
            Refusal::NoMemory => 0,
        }
    }
}

impl PermitRefusal {
    /// The number of the refusal in the table of causes.
    // Kept: the numbers are the table's own and are printed; a case that holds a permit has no number to be cast to.
    pub fn number(&self) -> u8
        ensures { result ≡ permit_number self.now }
    {
        match self {
            PermitRefusal::OtherBook(_) => 8,
            PermitRefusal::NotOut(_) => 9,
            PermitRefusal::StillGood(_) => 10,
        }
    }

    /// The permit that was refused.
    pub fn permit(self) -> Permit
        ensures { result ≡ permit_back self }
    {
        match self {
            PermitRefusal::OtherBook(permit)
            | PermitRefusal::NotOut(permit)
            | PermitRefusal::StillGood(permit) => permit,
        }
    }
}

/// A refusal is said in plain words.
// Kept: written by hand, since it states its bytes, which a derived error does not.
impl fmt::Display for Refusal {
    ghost output = { λ refusal. Some (said refusal) };

    fn fmt<W: fmt::Write>(&self, f: &mut fmt::Formatter<W>) -> fmt::Result {
        match self {
            Refusal::Stations => f.write_str("there are no stations, or more than 512"),
            Refusal::TooManyRows => f.write_str("there are more than 2,048 rows"),
            Refusal::BadRow(refusal) => refusal.fmt(f),
            Refusal::NoSuchLink => f.write_str("the book has no link of that number"),
            Refusal::NotInService => f.write_str("the link is not in service"),
            Refusal::MapStands => f.write_str("the book has its map already"),
            Refusal::NoMap => f.write_str("the book has no map"),
            Refusal::NothingSettled => f.write_str("nothing is settled"),
            Refusal::NoMemory => f.write_str("memory was wanting"),
        }
    }
}

impl Error for Refusal {}

impl From<AllocError> for Refusal {
    ghost from_gives = { λ _ r. r ≡ NoMemory };

    fn from(_e: AllocError) -> Refusal {
        Refusal::NoMemory
    }
}

impl From<RowRefusal> for Refusal {
    ghost from_gives = { λ why r. r ≡ BadRow why };

    fn from(why: RowRefusal) -> Refusal {
        Refusal::BadRow(why)
    }
}
