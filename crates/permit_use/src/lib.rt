//! A client of the book that spends every permit it gets. Its must-fail edits let one fall.

#![tactic(auto)]

ghost use Rattle.std.specs.Prelude.{◌≡◌, true, false, slice_index_or};
ghost use Rattle.book.specs.Matter.{matter, In, Struck};

use book::book::Book;
use book::refusal::PermitRefusal;

// Kept: a bool in all three, which is the link's service mark as the contract says; ending at home answers that it could.
/// Takes a link out of service and puts it back; false where it was not in service.
pub fn out_and_back(book: &mut Book, link: u32) -> bool
    ensures was { result ≡ slice_index_or (matter book.old).network.service link false }
    ensures back { result ≡ true → In (matter book.new) link }
    ensures same { ((matter book.new).number ≡ (matter book.old).number) × ((matter book.new).network.rows ≡ (matter book.old).network.rows) }
{
    let Ok(permit) = book.withdraw(link) else {
        return false;
    };
    book.give_back(permit).unwrap();
    true
}

// Kept: one function over a closure would ask of the closure all that giving back or striking promises, to save two lines of each.
/// Takes a link out of service for good; false where it was not in service.
pub fn out_for_good(book: &mut Book, link: u32) -> bool
    ensures was { result ≡ slice_index_or (matter book.old).network.service link false }
    ensures gone { result ≡ true → Struck (matter book.new) link }
{
    let Ok(permit) = book.withdraw(link) else {
        return false;
    };
    book.strike(permit).unwrap();
    true
}

/// Takes a link of one book out, offers the permit to another book, and where that refuses it, ends it at home.
pub fn offer_elsewhere(home: &mut Book, other: &mut Book, link: u32) -> bool
    ensures { result ≡ slice_index_or (matter home.old).network.service link false }
{
    let Ok(permit) = home.withdraw(link) else {
        return false;
    };
    let Err(refused) = other.give_back(permit) else {
        return true;
    };
    end_at_home(home, refused)
}

/// Gives the permit of a refusal back at home, or annuls it where that is refused too.
fn end_at_home(home: &mut Book, refused: PermitRefusal) -> bool
    ensures { result ≡ true }
{
    if let Err(again) = home.give_back(refused.permit()) {
        home.annul(again.permit()).unwrap();
    }
    true
}
