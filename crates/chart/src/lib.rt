//! A scheme with its map: the component tree of the links in service, once it was drawn.

#![tactic(auto)]

pub mod asks;
pub mod chart;
