//! What can be wrong with a field.

use strategies::names::NotAName;

/// Why a field is not what it should be.
#[derive(Clone, Copy, PartialEq, Eq, Debug)]
pub enum FieldCause {
    /// The field is not a strategy's name, right-justified: 16.
    Name(NotAName),
    /// The field is not a number, right-justified: 19.
    Number,
    /// A column that must be blank is not: 20.
    Blank,
    /// A column that must be + or - is neither: 20.
    Sign,
}

/// A field's fault: its cause, and its column. For a name and a number that is the field's first column.
#[derive(Clone, Copy, PartialEq, Eq, Debug)]
pub struct FieldFault {
    pub cause: FieldCause,
    pub column: u32,
}
