//! The meanings suffice: functions over any shelf, any keeper and the stack, proved from the meanings alone.

#![tactic(auto)]

pub mod lent;
pub mod others;
pub mod passed;
