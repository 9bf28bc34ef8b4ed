//! The fields of an access list's line: what the bytes of a field say, and what can be wrong with them.
#![tactic(auto)]

pub mod faults;
pub mod field;
pub mod numbers;
pub mod reading;
