//! Access lists: a reader that goes from line to line of a text, and the run of a whole list.
#![tactic(auto)]

mod acting;
pub mod faults;
pub mod list;
pub mod reader;
pub mod running;
mod session;
