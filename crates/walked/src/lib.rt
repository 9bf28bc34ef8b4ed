//! The walked question and the least distance: the marks that reach an account, found by going down the memberships from every
//! account that has some. An inner layer, whose calls require a known account.
#![tactic(auto)]

mod asking;
mod defaults;
mod distances;
mod starting;
mod starts;

pub use asking::{least_distance, walked_rows};
