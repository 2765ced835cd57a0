ghost use Rattle.std.specs.Prelude.{◌≡◌, true};
ghost use Rattle.network.specs.Schemes.{network_of};
ghost use Rattle.tree.specs.Components.{Components};
ghost use Rattle.map.specs.Means.{tree_of};

use map::map::Map;
use network::scheme::Scheme;

/// A scheme, and memory for its map. Where the map stands, it is the component tree of the scheme's links in service.
#[derive(Drop)]
pub struct Chart {
    pub scheme: Scheme,
    pub map: Map,
    // Kept: no enum of a bare and a standing map, since taking it down would move the map's memory out of one variant into the other, through an empty map.
    pub stands: bool,
    ghost right: { stands ≡ true → ∥ Components (network_of scheme) (tree_of map) ∥₁ },
}
