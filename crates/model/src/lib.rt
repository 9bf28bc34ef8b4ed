//! What the access book means: grants, refusals, calls and answers, and in specs/ the model that is kept from the calls'
//! arguments alone. The book is held to these definitions; nothing here knows of tables or of memory.
#![tactic(auto)]

pub mod access;
pub mod answer;
pub mod answering;
pub mod call;
pub mod grant;
pub mod laws;
pub mod refusal;
