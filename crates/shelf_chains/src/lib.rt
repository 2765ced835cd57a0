//! A shelf of chains: every call but clear takes a constant time.

#![tactic(auto)]

pub mod chains;
pub mod chains_shelf;
