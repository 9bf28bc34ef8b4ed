//! Lists of marks, one a line: reading them and counting what they write.
#![tactic(auto)]

mod counting;
pub mod faults;
mod reading;

pub use counting::count_marks;
