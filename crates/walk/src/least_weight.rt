// A distance or none as a weight.
ghost use Rattle.walk.specs.Least.{none, lesser, further};
ghost use Rattle.walk.specs.Distances.{least_laws};

use crate::weight::Weight;

// A step that would go beyond this distance leads to none.
const FURTHEST: u8 = 254;

/// Adding takes the lesser distance, and a step adds one to it.
impl Weight for Option<u8> {
    ghost nothing = { none };

    ghost plus = { lesser };

    ghost stepped = { further };

    ghost lawful = { least_laws };

    fn nothing() -> Option<u8> {
        None
    }

    fn plus(&self, other: &Option<u8>) -> Option<u8> {
        match (*self, *other) {
            (Some(x), Some(y)) => Some(x.min(y)),
            (x, y) => x.or(y),
        }
    }

    fn step(&self) -> Option<u8> {
        self.and_then(|distance| distance.checked_add(1))
            .filter(|distance| *distance <= FURTHEST)
    }

    fn is_nothing(&self) -> bool {
        self.is_none()
    }
}
