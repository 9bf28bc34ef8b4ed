//! The access book: who may use a right on an item, answered from memberships and grants that lie in the caller's memory.
#![tactic(auto)]

mod asking;
mod books;
mod changing;
mod making;

pub use books::Book;
