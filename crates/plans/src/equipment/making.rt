ghost use Rattle.std.specs.Prelude.{◌≡◌, ℕ, nat_lt};
ghost use Rattle.plans.specs.Filling.{no_items, next_number};
ghost use Rattle.plans.specs.Table.{table};

use crate::equipment::Equipment;
use crate::place::Place;
use crate::plan::ITEMS;

impl Equipment {
    /// A table that knows nothing.
    pub fn new() -> Equipment
        ensures made { table result ≡ no_items }
    {
        let blank = Place {
            first: None,
            second: None,
            height: 0,
        };
        Equipment {
            places: [blank; ITEMS],
            filled: 0,
        }
    }

    /// The number that the next item must have: how many are known. Exactly the items below it are known.
    pub fn next(&self) -> u32
        ensures answer { result ≡ next_number (table self.now) }
        ensures below { (item : ℕ) → (table self.now).known item ≡ nat_lt item result }
    {
        self.filled
    }
}
