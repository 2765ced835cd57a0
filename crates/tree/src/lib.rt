//! The component tree of a network: what it is (specs/Components.antt), and what follows (specs/Laws.antt).

#![tactic(auto)]

pub mod laws;
