//! The plain lister, which the book is compared with: it walks every chain one by one, lists every mark, and decides on the list.
#![tactic(auto)]

pub mod changing;
pub mod deciding;
pub mod every_chain;
pub mod lister;
pub mod listing;
pub mod refused;
#[cfg(test)]
mod tests;
