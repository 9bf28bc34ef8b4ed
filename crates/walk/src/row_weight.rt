// A row of counts as a weight.
ghost use Rattle.std.specs.Prelude.{◌≡◌, ◌+◌, ◌<◌, ◌^◌};
ghost use Rattle.walk.specs.Counts.{no_counts, added, later, limited};
ghost use Rattle.walk.specs.RowLaws.{row_laws};

use crate::weight::Weight;
use std::array;
use strategies::rows::{MOST, Row};

/// Two counts together, up to a million million.
pub fn together(x: u64, y: u64) -> u64
    requires { x + y < 2 ^ 64 }
    ensures { result ≡ limited (x + y) }
{
    (x + y).min(MOST)
}

/// Rows add place by place, up to a million million; a step moves each count one distance on, and the last falls off.
impl Weight for Row {
    ghost nothing = { no_counts };

    ghost plus = { added };

    ghost stepped = { later };

    ghost lawful = { row_laws };

    fn nothing() -> Row {
        Row::none()
    }

    fn plus(&self, other: &Row) -> Row {
        Row {
            counts: array::from_fn(|d| together(self.counts[d], other.counts[d])),
        }
    }

    fn step(&self) -> Row {
        Row {
            counts: array::from_fn(|d| if d == 0 { 0 } else { self.counts[d - 1] }),
        }
    }

    fn is_nothing(&self) -> bool {
        self.counts.iter().all(|count| *count == 0)
    }
}
