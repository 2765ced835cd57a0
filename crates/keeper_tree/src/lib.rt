//! A keeper that is a tree of stored leasts: lower, retire and least take a time that grows with the logarithm of the places.

#![tactic(auto)]

pub mod tree;
pub mod tree_keeper;
