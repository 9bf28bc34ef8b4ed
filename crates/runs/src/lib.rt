//! Lists of calls on a book, held to whole runs of the model.
#![tactic(auto)]

mod calls;

pub use calls::{make_and_run, run_calls, step};
