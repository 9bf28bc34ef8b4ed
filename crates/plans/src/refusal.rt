ghost use Rattle.plans.specs.Refusals.{refusal_number};

use numbered::Numbered;

/// Why the equipment table does not take an item.
#[derive(Clone, Copy, PartialEq, Eq, Debug)]
pub enum EquipmentRefusal {
    /// The item is not the next number, or is 256.
    NotNext = 13,
    /// A container is not known, or both are equal.
    BadContainer = 14,
    /// The height would be 8.
    TooHigh = 15,
}

/// The refusals have the numbers 13 to 15.
impl Numbered for EquipmentRefusal {
    ghost number_of = { refusal_number };

    fn number(self) -> u32 {
        self as u32
    }
}
