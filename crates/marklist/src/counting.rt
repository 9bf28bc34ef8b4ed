//! Counts the marks that a whole text writes.

ghost use Rattle.marklist.specs.Texts.{marks_in, CountedBy};
ghost use Rattle.texts.specs.Lines.{lines_of};

use crate::faults::ListFault;
use crate::reading::read_mark;
use strategies::rows::Rows;
use texts::Lines;

/// Counts the marks that a text writes, one a line.
pub fn count_marks(text: &[u8]) -> Result<Rows, ListFault>
    ensures { CountedBy result (marks_in 0 (lines_of text.now)) }
{
    let mut rows = Rows::none();
    for (before, line) in Lines::of(text).enumerate() {
        let arrival = read_mark(line).map_err(|fault| (before + 1, fault))?;
        rows.add(arrival);
    }
    Ok(rows)
}
