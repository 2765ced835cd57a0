ghost use Rattle.std.specs.Prelude.{◌≡◌, ◌↔◌, IfOk, IsTrue, MatchResult};
ghost use Rattle.book.specs.Matter.{matter, stood};
ghost use Rattle.book.specs.Calls.{Withdraws, Out, Good, NotGood, Ends, GivesBack, Strikes, Annuls};

use super::book::Book;
use super::permit::Permit;
use super::refusal::{PermitRefusal, Refusal};
use super::stage::Stage;
use network::entry::Standing;

impl Book {
    /// Takes a link out of service, and answers the permit to put it back. Refuses a link that the book has not, and one that is not
    /// in service. The permit can be given back or struck at once.
    pub fn withdraw(&mut self, link: u32) -> Result<Permit, Refusal>
        ensures withdrawn { Withdraws (matter self.old) link result (matter self.new) }
        ensures good { IfOk result (λ p. Good (matter self.new) p) }
    {
        if link >= self.links() {
            return Err(Refusal::NoSuchLink);
        }
        if !self.in_service(link) {
            return Err(Refusal::NotInService);
        }
        self.stand(link, Standing::Out);
        Ok(Permit {
            book: self.number,
            link,
            spent: false,
        })
    }

    /// Whether the link is out, and not for good.
    fn is_out(&self, link: u32) -> bool
        ensures { IsTrue result ↔ Out (matter self.now) link }
    {
        self.stands(link, Standing::Out)
    }

    /// The permit, where giving it back would do, or the refusal with it.
    fn checked(&self, permit: Permit) -> Result<Permit, PermitRefusal>
        ensures { MatchResult result (λ q. (q ≡ permit) × Good (matter self.now) permit) (λ why. NotGood (matter self.now) permit why) }
    {
        if permit.book != self.number {
            return Err(PermitRefusal::OtherBook(permit));
        }
        if !self.is_out(permit.link) {
            return Err(PermitRefusal::NotOut(permit));
        }
        Ok(permit)
    }

    /// Sets where a link stands; the book is bare then.
    fn stand(&mut self, link: u32, standing: Standing)
        ensures { matter self.new ≡ stood (matter self.old) link standing }
    {
        self.scheme.stand(link as usize, standing);
        self.stage = Stage::Bare;
    }

    /// Ends a permit that could be given back, and sets where its link stands.
    fn end(&mut self, permit: Permit, standing: Standing) -> Result<(), PermitRefusal>
        ensures { Ends (matter self.old) permit standing result (matter self.new) }
    {
        let mut permit = self.checked(permit)?;
        permit.spent = true;
        self.stand(permit.link, standing);
        Ok(())
    }

    /// Puts the permit's link back into service. Refuses a permit of another book's number, and one whose link is no link of this
    /// book, or not out, or out for good; the permit then comes back.
    pub fn give_back(&mut self, permit: Permit) -> Result<(), PermitRefusal>
        ensures { GivesBack (matter self.old) permit result (matter self.new) }
    {
        self.end(permit, Standing::In)
    }

    /// Leaves the permit's link out for good. Refuses as giving back does.
    pub fn strike(&mut self, permit: Permit) -> Result<(), PermitRefusal>
        ensures { Strikes (matter self.old) permit result (matter self.new) }
    {
        self.end(permit, Standing::Struck)
    }

    /// Ends a permit that could not be given back, and changes nothing. Refuses one that could; it then comes back.
    pub fn annul(&self, mut permit: Permit) -> Result<(), PermitRefusal>
        ensures { Annuls (matter self.now) permit result }
    {
        if permit.book == self.number && self.is_out(permit.link) {
            return Err(PermitRefusal::StillGood(permit));
        }
        permit.spent = true;
        Ok(())
    }
}
