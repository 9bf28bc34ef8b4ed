//! The grants of a book, in records that the caller lends: an inner layer, of what always holds of them.
#![tactic(auto)]

mod grants;

pub use grants::{Grants, MOST_GRANTS};
