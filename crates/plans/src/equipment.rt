ghost use Rattle.std.specs.Prelude.{◌≤◌};
ghost use Rattle.plans.specs.Equipment.{Good};

mod making;
mod methods;

use crate::place::Place;
use crate::plan::ITEMS;

/// The equipment table: a plan of 256 places of its own, filled item by item in number order.
// An array beside how many of its places are filled, and not a Vec: a plan takes no memory but its own.
#[derive(Drop)]
pub struct Equipment {
    places: [Place; ITEMS],
    filled: u32,
    ghost within: { filled ≤ 256 },
    ghost good: { Good places filled },
}
