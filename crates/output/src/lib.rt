//! What the lines of an access list came to, and how that is written.
#![tactic(auto)]

pub mod outcome;
pub mod pushing;
