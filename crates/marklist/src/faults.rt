//! What is wrong with a text that should write marks.

use std::fmt;
use texts::AtLine;

/// Why a line writes no mark.
#[derive(Clone, Copy, PartialEq, Eq, Debug)]
pub enum MarkFault {
    /// The line does not begin with `+`, `-` or `d`.
    NoMark,
    /// No blank stands behind the mark.
    NoBlank,
    /// What stands behind the blank is not a number from 0 to 14 without leading zeros.
    NoDistance,
}

/// The first line that writes no mark, counted from 1.
pub type ListFault = AtLine<MarkFault>;

impl fmt::Display for MarkFault {
    fn fmt<W: fmt::Write>(&self, f: &mut fmt::Formatter<W>) -> fmt::Result {
        match self {
            MarkFault::NoMark => f.write_str("no mark: +, - or d is expected"),
            MarkFault::NoBlank => f.write_str("no blank behind the mark"),
            MarkFault::NoDistance => f.write_str("no distance from 0 to 14"),
        }
    }
}
