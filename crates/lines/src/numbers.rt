//! The number and the column of a line's fault.

ghost use Rattle.std.specs.Prelude.{◌≡◌};
ghost use Rattle.lines.specs.FaultNumbers.{fault_number, fault_column};

use crate::faults::LineFault;
use numbered::Numbered;

impl Numbered for LineFault {
    ghost number_of = { fault_number };

    /// The number of the fault, 16 to 20.
    fn number(self) -> u32 {
        match self {
            LineFault::Length => 17,
            LineFault::Letter => 18,
            LineFault::Field(fault) => fault.cause.number(),
        }
    }
}

impl LineFault {
    /// The column of the fault, counted from 1.
    pub fn column(self) -> u32
        ensures answer { result ≡ fault_column self }
    {
        match self {
            LineFault::Length | LineFault::Letter => 1,
            LineFault::Field(fault) => fault.column,
        }
    }
}
