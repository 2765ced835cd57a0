//! The book: opening, permits, links out of service.

#![tactic(auto)]

pub mod asks;
pub mod book;
pub mod changes;
pub mod laws;
pub mod opening;
pub mod permit;
pub mod refusal;
pub mod stage;
