// A row of counts for each mark as a weight.
ghost use Rattle.walk.specs.Counts.{no_rows, added_rows, later_rows};
ghost use Rattle.walk.specs.RowLaws.{rows_laws};

use crate::weight::Weight;
use strategies::rows::{Row, Rows};

/// Each mark's row adds and steps by itself.
// Written row by row: a helper over the three rows would need a closure for each method, and say no less.
impl Weight for Rows {
    ghost nothing = { no_rows };

    ghost plus = { added_rows };

    ghost stepped = { later_rows };

    ghost lawful = { rows_laws };

    fn nothing() -> Rows {
        Rows {
            plus: Row::nothing(),
            minus: Row::nothing(),
            default: Row::nothing(),
        }
    }

    fn plus(&self, other: &Rows) -> Rows {
        Rows {
            plus: self.plus.plus(&other.plus),
            minus: self.minus.plus(&other.minus),
            default: self.default.plus(&other.default),
        }
    }

    fn step(&self) -> Rows {
        Rows {
            plus: self.plus.step(),
            minus: self.minus.step(),
            default: self.default.step(),
        }
    }

    fn is_nothing(&self) -> bool {
        self.plus.is_nothing() && self.minus.is_nothing() && self.default.is_nothing()
    }
}
