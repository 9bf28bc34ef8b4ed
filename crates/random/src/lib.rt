//! Charts and calls at random: sizes and shapes, items, lent memory, and calls, the same in every run.
#![tactic(auto)]

pub mod adding;
pub mod calling;
pub mod generator;
pub mod lending;
mod picking;
pub mod setting;
pub mod shapes;
