//! Words of a sheet: bytes by kind, numbers and states as words spell them, and what can be wrong with a sheet.

#![tactic(auto)]

pub mod byte;
pub mod fault;
pub mod laws;
pub mod numeral;
pub mod state;
