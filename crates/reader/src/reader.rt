//! A reader over the text of an access list, which stays the caller's.

ghost use Rattle.std.specs.Prelude.{◌≡◌, ◌+◌, ◌≤◌, length};
ghost use Rattle.texts.specs.Lines.{last_bytes};

use texts::Lines;

/// The text of an access list, its lines that are still to be read, and how many were read. The lines to be read are those of the text's end.
#[derive(Drop)]
pub struct Reader<'a> {
    pub(crate) text: &'a [u8],
    pub(crate) lines: Lines<'a>,
    pub(crate) line: usize,
    ghost end: { lines.rest.now ≡ last_bytes (length lines.rest.now) text.now },
    ghost behind: { line + length lines.rest.now ≤ length text.now },
}

impl Reader<'_> {
    /// How many lines were read so far: the number of the line that `next` gave last.
    pub fn line(&self) -> usize
        ensures answer { result ≡ self.now.line }
    {
        self.line
    }
}
