//! The book and the access list for callers in C: numbers, slices and plain records cross, and nothing else.
#![tactic(auto)]

mod answers;
mod exports;
mod memory;
mod plain;
mod request;
mod requests;
mod served;
mod serving;

pub use exports::{ladle_make_and_run, ladle_run_list};
pub use plain::{CallRecord, GrantRecord, ListRun, ReplyRecord, Run};
