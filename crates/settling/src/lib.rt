//! The settling walk, over any shelf and any keeper. Each contract is a rule or a step of the relation of crate `walk`, or a part of one,
//! between what trail, shelf and keeper stand for before and after. (The entry point, which makes ready, visits the root and runs on to the
//! end, is still to come, so nothing here is open to other crates yet.)

#![tactic(auto)]

mod begin;
mod enter;
mod follow;
mod grow;
mod look;
mod place;
mod progress;
mod run;
mod step;
mod trail;
mod trail_asks;
mod turn;
mod visit;
mod walker;
