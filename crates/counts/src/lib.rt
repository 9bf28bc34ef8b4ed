//! The chain counts of all pairs of accounts in a list of numbers: reading, making and changing them. An inner layer, whose functions require
//! known accounts and, where they change counts, that the counts fit into the list.
#![tactic(auto)]

pub mod changing;
pub mod lengths;
pub mod making;
pub mod reading;
pub mod sums;
