//! What can be wrong with a line. A fault of a field is held whole.

ghost use Rattle.std.specs.Prelude.{◌≡◌};
ghost use Rattle.lines.specs.declared.faults.LineFault.TheVariants.{Field};

use fields::faults::FieldFault;

/// What is wrong with a line.
#[derive(Clone, Copy, PartialEq, Eq, Debug)]
pub enum LineFault {
    /// The line is not 18 bytes: 17, at column 1.
    Length,
    /// The line begins with no letter that is known: 18, at column 1.
    Letter,
    /// A field has a fault.
    Field(FieldFault),
}

impl From<FieldFault> for LineFault {
    ghost from_gives = { λ fault r. r ≡ Field fault };

    fn from(fault: FieldFault) -> LineFault {
        LineFault::Field(fault)
    }
}
