//! The chain counts of all pairs of accounts, in memory that the caller lends: an inner layer, whose calls require that their tests have passed.
#![tactic(auto)]

mod joining;
mod tables;

pub use tables::Table;
