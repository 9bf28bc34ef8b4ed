//! Lists kept in part, joined and counted, and sums below a bound: the words in which the other crates say what they count.
//! The crate has definitions and lemmas only; it computes nothing.
#![tactic(auto)]
