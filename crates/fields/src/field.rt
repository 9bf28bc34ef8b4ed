//! Fields: parts of the caller's line, each with its first column.

ghost use Rattle.std.specs.Prelude.{◌+◌, ◌≤◌, length};

/// Some columns of a line that stays the caller's, and the first of them, counted from 1. A line ends with column 18.
#[derive(Clone, Copy)]
pub struct Field<'a> {
    pub bytes: &'a [u8],
    pub column: u32,
    ghost within: { column + length bytes.now ≤ 19 },
}
