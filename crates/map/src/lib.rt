//! The tree of groups in memory: a list of nodes, and the tree that it stands for.

#![tactic(auto)]

pub mod asks;
pub mod blank;
pub mod map;
pub mod node;
