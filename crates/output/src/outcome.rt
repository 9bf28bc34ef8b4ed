//! What a line of an access list came to.

use lines::faults::LineFault;
use strategies::marks::Sign;

/// What a line of an access list came to.
#[derive(Clone, Copy, PartialEq, Eq, Debug)]
pub enum Outcome {
    /// The call was accepted, and gives nothing.
    Done,
    /// The call was refused with this number. It is any number, and no type of refusals: a caller may write what it read elsewhere.
    Refused {
        number: u32,
    },
    /// The line has a fault, and made no call.
    Faulty(LineFault),
    /// A question was answered: the sign, and the totals of both signs.
    Answered {
        sign: Sign,
        plus_total: u64,
        minus_total: u64,
    },
}
