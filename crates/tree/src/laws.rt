//! The laws of the component tree. A function here computes nothing: its contract is a theorem of specs/Laws.antt, and the
//! crate is proved only with its proof.

ghost use Rattle.tree.specs.Laws.{ANetworkHasOneTree, TheTreeServesTheWalk, PlacesAreInOrder, TheNodesAreTheGroups, TheSmallestNodeHasTheJointLevel, FourIsOfLevelThree, FiveStationsHaveThisTree};

/// Two component trees of one network are the same: in nodes, levels, lowest stations, parents, children, spreads, buckets, places and runs.
pub fn a_network_has_one_tree() -> u8
    ensures { ANetworkHasOneTree }
{
    0
}

/// The component tree fits its network, has fewer than 2n nodes and at most 6(n − 1) buckets, and a node's run is exactly its stations' places.
pub fn the_tree_serves_the_walk() -> u8
    ensures { TheTreeServesTheWalk }
{
    0
}

/// A node's run of places begins with its lowest station, and siblings lie in the order of their lowest stations.
pub fn places_are_in_order() -> u8
    ensures { PlacesAreInOrder }
{
    0
}

/// The nodes are the groups of all levels, each at the lowest level where it is one.
pub fn the_nodes_are_the_groups() -> u8
    ensures { TheNodesAreTheGroups }
{
    0
}

/// The smallest node that holds two stations has their joint level; there is none exactly if no route joins them.
pub fn the_smallest_node_has_the_joint_level() -> u8
    ensures { TheSmallestNodeHasTheJointLevel }
{
    0
}

/// A link of 4 ns is of level 3, never 2.
pub fn four_is_of_level_three() -> u8
    ensures { FourIsOfLevelThree }
{
    0
}

/// The component tree of five stations with six links: inner nodes 5 {0, 1}, 6 {0, 1, 2} and 7 {0, 1, 2, 3}, of levels 2, 3 and 5, with spreads 3, 7
/// and 23 and 3 buckets each.
pub fn five_stations_have_this_tree() -> u8
    ensures { FiveStationsHaveThisTree }
{
    0
}
