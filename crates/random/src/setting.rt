//! Signs and settings of a strategy at random.

use crate::generator::Random;
use lister::deciding::Parts;
use strategies::marks::Sign;
use strategies::strategy::{DefaultRule, Locality, Majority};

/// A yes or a no.
pub fn any_sign(random: &mut Random) -> Sign {
    if random.once_in(2) {
        Sign::Plus
    } else {
        Sign::Minus
    }
}

// One of the three.
fn one_of<T: Copy>(random: &mut Random, choices: [T; 3]) -> T {
    choices[random.below(3) as usize]
}

/// One of the fifty-four settings.
pub fn any_parts(random: &mut Random) -> Parts {
    Parts {
        default: one_of(
            random,
            [
                DefaultRule::Dropped,
                DefaultRule::Counts(Sign::Plus),
                DefaultRule::Counts(Sign::Minus),
            ],
        ),
        locality: one_of(
            random,
            [Locality::Anywhere, Locality::Nearest, Locality::Farthest],
        ),
        majority: one_of(
            random,
            [Majority::Skipped, Majority::Before, Majority::After],
        ),
        preferred: any_sign(random),
    }
}
