//! The lines of an access list: what one line says, and what can be wrong with it.
#![tactic(auto)]

mod commands;
pub mod faults;
pub mod line;
pub mod numbers;

pub use commands::read_line;
