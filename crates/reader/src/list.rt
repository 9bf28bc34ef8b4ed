//! Reads an access list line by line.

ghost use Rattle.std.specs.Prelude.{◌≡◌};
ghost use Rattle.lines.specs.Laws.{OneSpelling};
ghost use Rattle.texts.specs.Laws.{LinesAgain};
ghost use Rattle.reader.specs.Lists.{list_of, first_said, tail, lines_left, unread, one_more};

use crate::faults::ListFault;
use crate::reader::Reader;
use lines::line::Line;
use lines::read_line;
use texts::Lines;

impl<'a> Reader<'a> {
    /// A reader that stands before the first line of the text.
    ///
    /// The last two clauses are laws of the format: a text is its lines, each with a line feed behind it, of which the last may be
    /// missing; and a line is read as what it says exactly if it is the one spelling of that.
    pub fn new(text: &'a [u8]) -> Reader<'a>
        ensures answer { unread result ≡ list_of text.now }
        ensures text { result.text.now ≡ text.now }
        ensures count { result.line ≡ 0 }
        ensures again { LinesAgain }
        ensures spelling { OneSpelling }
    {
        Reader {
            text,
            lines: Lines::of(text),
            line: 0,
        }
    }

    // No impl of Iterator: the fault comes out with `?`, so the result is a Result of an Option.
    /// Reads the next line, or gives none behind the last. After a fault, too, the reader stands behind that line. The text stays as it is.
    pub fn next(&mut self) -> Result<Option<Line>, ListFault>
        ensures answer { result ≡ first_said (unread self.old) }
        ensures after { unread self.new ≡ tail (unread self.old) }
        ensures count { self.new.line ≡ one_more self.old.line (lines_left self.old) }
        ensures same { self.new.text ≡ self.old.text }
    {
        let Some(bytes) = self.lines.next() else {
            return Ok(None);
        };
        self.line += 1;
        let line = read_line(bytes).map_err(|fault| (self.line, fault))?;
        Ok(Some(line))
    }
}
