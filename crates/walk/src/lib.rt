//! The settling walk: a relation between states (specs/), and what every run of it yields. `docs/WALK.md` says the rules in words.

#![tactic(auto)]

pub mod frame;
pub mod laws;
