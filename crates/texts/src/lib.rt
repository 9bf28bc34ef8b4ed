//! Texts of bytes: the lines of a text, and what is wrong at one of them.
#![tactic(auto)]

mod at_line;
mod lines;

pub use at_line::AtLine;
pub use lines::Lines;
