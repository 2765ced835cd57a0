//! The making of the component tree, level by level, over memory that is reserved before.

#![tactic(auto)]

pub mod groups;
pub mod growth;
pub mod measures;
pub mod nodes;
