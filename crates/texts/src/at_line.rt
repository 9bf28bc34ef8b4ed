//! What is wrong with a text, at the line where it is.

ghost use Rattle.std.specs.Prelude.{◌≡◌};
ghost use Rattle.texts.specs.Faults.{at_its_line};

use std::fmt;

/// A fault, and the number of the line that has it, counted from 1.
#[derive(Clone, Copy, PartialEq, Eq, Debug)]
pub struct AtLine<F> {
    pub line: usize,
    pub fault: F,
}

impl<F> From<(usize, F)> for AtLine<F> {
    ghost from_gives = { λ at r. (r.line ≡ at.0) × (r.fault ≡ at.1) };

    fn from(at: (usize, F)) -> AtLine<F> {
        AtLine {
            line: at.0,
            fault: at.1,
        }
    }
}

impl<F: fmt::Display> fmt::Display for AtLine<F> {
    ghost output = { λ at. at_its_line at.line (F.output at.fault) };

    fn fmt<W: fmt::Write>(&self, f: &mut fmt::Formatter<W>) -> fmt::Result {
        let line = self.line;
        let fault = &self.fault;
        write!(f, "line {line}: {fault}")
    }
}
