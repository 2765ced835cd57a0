//! The laws of the words of a network. A function here computes nothing: its contract is a group of theorems of
//! specs/Laws.antt, and the crate is proved only with their proofs.

ghost use Rattle.std.specs.Prelude.{ℕ, Option};
ghost use Rattle.network.specs.Network.{Network};
ghost use Rattle.network.specs.Laws.{RoutesJoinAndTurn, LeastDelayIsADistance, ARouteGivesALeastOne, LinksOnceSumBelow, LeastIsBounded, UnderIsAnEquivalence, ApartMeansLong, StationsFallIntoGroups, JointLevelIsADistance, EachSourceHasItsDelays, PickedRouteStands, NextVisitedIsLeast};

/// Routes join and turn round, and their sums with them.
pub fn routes_join_and_turn() -> u8
    ensures { (g : Network) → RoutesJoinAndTurn g }
{
    0
}

/// The least delay between two stations is one number, the same both ways, and no detour is shorter.
pub fn least_delay_is_a_distance() -> u8
    ensures { (g : Network) → LeastDelayIsADistance g }
{
    0
}

/// Two stations have a least delay exactly if there is a route.
pub fn a_route_gives_a_least_one() -> u8
    ensures { (g : Network) → ARouteGivesALeastOne g }
{
    0
}

/// Links out of a list, none of them twice, take no longer than the whole list; and every route can be cut to have none twice.
pub fn links_once_sum_below() -> u8
    ensures { (g : Network) → LinksOnceSumBelow g }
{
    0
}

/// A least delay is at most 511 times the greatest delay of a link, since a least route comes by no station twice.
pub fn least_is_bounded() -> u8
    ensures { (g : Network) → LeastIsBounded g }
{
    0
}

/// "Joined by links under 2^i" is an equivalence of the stations, and grows with i.
pub fn under_is_an_equivalence() -> u8
    ensures { (g : Network) → UnderIsAnEquivalence g }
{
    0
}

/// Where no route keeps every link under 2^i, every route takes 2^i or more.
pub fn apart_means_long() -> u8
    ensures { (g : Network) → ApartMeansLong g }
{
    0
}

/// At each level each station is in exactly one group, and the groups of a level lie in those of the next.
pub fn stations_fall_into_groups() -> u8
    ensures { (g : Network) → StationsFallIntoGroups g }
{
    0
}

/// The joint level of two stations is one number, 0 only for a station and itself.
pub fn joint_level_is_a_distance() -> u8
    ensures { (g : Network) → JointLevelIsADistance g }
{
    0
}

/// The least delays from a source, none where no route leads, are one function of the stations.
pub fn each_source_has_its_delays() -> u8
    ensures { (g : Network) (s : ℕ) → EachSourceHasItsDelays g s }
{
    0
}

/// The route that is answered exists, is the only one, and is a least route.
pub fn picked_route_stands() -> u8
    ensures { (g : Network) (delays : ℕ → Option ℕ) (s : ℕ) → PickedRouteStands g delays s }
{
    0
}

/// The station that a settling walk visits next is at its least delay.
pub fn next_visited_is_least() -> u8
    ensures { (g : Network) (s : ℕ) (final tentative : ℕ → Option ℕ) → NextVisitedIsLeast g s final tentative }
{
    0
}
