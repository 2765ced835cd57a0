ghost use Rattle.std.specs.Prelude.{◌≡◌, ◌<◌, true, false, [], IfOk};
ghost use Rattle.network.specs.Schemes.{network_of, struck_of};
ghost use Rattle.chart.specs.Changes.{one_station, Served};

use super::chart::Chart;
use map::map::Map;
use network::entry::Standing;
use network::scheme::Scheme;
use std::alloc::{AllocError, Global};

impl Chart {
    /// A chart of one station and no link, with memory for the map of any scheme; no map stands.
    pub fn new(heap: Global) -> Result<Chart, AllocError>
        ensures { IfOk result (λ c. (network_of c.scheme ≡ one_station) × (c.stands ≡ false)) }
    {
        let map = Map::new(heap)?;
        let scheme = Scheme {
            stations: 1,
            links: Vec::new(heap),
        };
        Ok(Chart {
            scheme,
            map,
            stands: false,
        })
    }

    /// Takes another scheme in place of its own; no map stands then.
    pub fn replace(&mut self, scheme: Scheme)
        ensures scheme { network_of self.new.scheme ≡ network_of scheme }
        ensures struck { struck_of self.new.scheme ≡ struck_of scheme }
        ensures stands { self.new.stands ≡ false }
    {
        self.stands = false;
        self.scheme = scheme;
    }

    /// Puts a link into service or takes it out of it; no map stands then. Past the last link nothing changes. A link that was struck
    /// is set too, since that a struck link stays out is the book's rule.
    // Kept: a bool, since a `Standing` would let a caller strike a link here, which is the book's call.
    pub fn serve(&mut self, link: usize, up: bool)
        ensures { Served self.old link up self.new }
    {
        if link < self.scheme.links.len() {
            self.stands = false;
            let standing = if up { Standing::In } else { Standing::Out };
            self.scheme.stand(link, standing);
        }
    }
}
