ghost use Rattle.std.specs.Prelude.{◌≡◌, ◌<◌, ◌≤◌, false, length, MatchOption, slice_index_or};
ghost use Rattle.network.specs.Network.{row};
ghost use Rattle.network.specs.Entries.{is_in, is_struck};
ghost use Rattle.network.specs.Schemes.{network_of, struck_of, Stood};

use super::entry::{Entry, Standing};
use super::scheme::Scheme;

impl Scheme {
    /// The link of that number and where it stands; none past the last.
    pub fn entry(&self, link: usize) -> Option<Entry>
        ensures { MatchOption result (length (network_of self.now).rows ≤ link)
            (λ e. (link < length (network_of self.now).rows) × (e.row ≡ row (network_of self.now) link)
            × (is_in e.standing ≡ slice_index_or (network_of self.now).service link false)
            × (is_struck e.standing ≡ slice_index_or (struck_of self.now) link false)) }
    {
        self.links.get(link).copied()
    }

    /// Sets where a link stands. Past the last link nothing changes.
    pub fn stand(&mut self, link: usize, standing: Standing)
        ensures { Stood self.old link standing self.new }
    {
        if let Some(entry) = self.links.get_mut(link) {
            entry.standing = standing;
        }
    }
}
