//! What can be wrong with a list. A fault of a line is held whole.

use lines::faults::LineFault;
use texts::AtLine;

/// A line's fault, and the number of the line, counted from 1.
pub type ListFault = AtLine<LineFault>;
