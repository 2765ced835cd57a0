//! The network of relay stations: rows as they are given, link records made from them, levels of delays, schemes with where each link
//! stands, and the laws of the words that specs/ defines (routes, least delays, groups).

#![tactic(auto)]

pub mod entry;
pub mod laws;
pub mod level;
pub mod link;
pub mod refusal;
pub mod row;
pub mod scheme;
pub mod standings;
