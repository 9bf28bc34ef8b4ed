//! The number of a field's fault.

ghost use Rattle.fields.specs.FaultNumbers.{cause_number};

use crate::faults::FieldCause;
use numbered::Numbered;

impl Numbered for FieldCause {
    ghost number_of = { cause_number };

    /// The number of the cause: 16, 19 or 20.
    fn number(self) -> u32 {
        match self {
            FieldCause::Name(refusal) => refusal.number(),
            FieldCause::Number => 19,
            FieldCause::Blank => 20,
            FieldCause::Sign => 20,
        }
    }
}
