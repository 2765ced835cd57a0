ghost use Rattle.std.specs.Prelude.{◌≡◌, ◌↔◌, ℕ, ◌<◌, ◌≤◌, Bool, true, false, length, IsTrue, MatchOption, slice_index_or, vec_len};
ghost use Rattle.network.specs.Entries.{no_entry};
ghost use Rattle.network.specs.Network.{row as row_of};
ghost use Rattle.book.specs.Matter.{matter, links, Struck};

use super::book::Book;
use super::stage::Stage;
use network::entry::Standing;
use network::link::Link;

impl Book {
    /// The book's number.
    pub fn number(&self) -> u32
        ensures { result ≡ (matter self.now).number }
    {
        self.number
    }

    /// How many stations it has.
    pub fn stations(&self) -> u32
        ensures { result ≡ (matter self.now).network.stations }
    {
        self.scheme.stations
    }

    /// How many links it has, in service or not.
    pub fn links(&self) -> u32
        ensures { result ≡ links (matter self.now) }
    {
        self.scheme.links.len() as u32
    }

    /// How far it is worked out.
    pub fn stage(&self) -> Stage
        ensures { result ≡ (matter self.now).stage }
    {
        self.stage
    }

    /// The link of that number, made from its row; none where the book has no such link.
    #[tactic(auto, using(crate::proofs::Soundness::made, crate::proofs::Soundness::proper))]
    pub fn link(&self, number: u32) -> Option<Link>
        ensures { MatchOption result (links (matter self.now) ≤ number) (λ l. (number < links (matter self.now)) × (l.row ≡ row_of (matter self.now).network number)) }
    {
        let entry = self.scheme.entry(number as usize)?;
        Some(Link::of_row(entry.row, self.scheme.stations).unwrap())
    }

    /// Whether the link of that number is in service; one that the book has not is not, and one that is struck is not.
    pub fn in_service(&self, number: u32) -> bool
        ensures served { result ≡ slice_index_or (matter self.now).network.service number false }
        ensures apart { result ≡ true → Struck (matter self.now) number → ⊥ }
    {
        self.stands(number, Standing::In)
    }

    /// Whether the book has a link of that number, and it stands so.
    pub(crate) fn stands(&self, link: u32, standing: Standing) -> bool
        ensures { IsTrue result ↔ (link < vec_len self.now.scheme.links) × ((slice_index_or self.now.scheme.links.items link no_entry).standing ≡ standing) }
    {
        self.scheme
            .entry(link as usize)
            .is_some_and(|entry| entry.standing == standing)
    }
}
