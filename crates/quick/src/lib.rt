//! The quick question: the marks that reach an account, read off the table of chain counts. An inner layer, whose calls require
//! a known account.
#![tactic(auto)]

mod arriving;
mod asking;
mod defaults;
mod sums;

pub use asking::quick_rows;
