//! A book from memory that a book left: its memberships are joined again, its grants given again, and its counts compared. An inner layer, which requires a
//! book that was just made.
#![tactic(auto)]

mod refusing;
mod regranting;
mod rejoining;
mod restoring;

pub use refusing::NotLeftByABook;
pub use restoring::restore;
