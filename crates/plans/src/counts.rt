ghost use Rattle.std.specs.Prelude.{◌≡◌, ℕ, ◌<◌, ◌≤◌, length, nat_lt};
ghost use Rattle.lists.specs.Lists.{some};
ghost use Rattle.plans.specs.Counts.{row_at, row_read, entry};

use crate::plan::ITEMS;

/// How many lengths an item chain can have: 0 to 7.
pub const LENGTHS: usize = 8;

/// A number for each length.
pub type Lengths = [u32; LENGTHS];

/// How many chains of each length lead from each item down to one item.
#[derive(Drop)]
pub struct ItemCounts {
    pub counts: [Lengths; ITEMS],
    ghost wide: { (b : ℕ) → b < 256 → length (row_at counts b) ≡ 8 },
    ghost few: { (b k : ℕ) → b < 256 → entry counts b k ≤ 128 },
}

impl ItemCounts {
    /// How many chains of each length lead down from an item: none from an item above 255.
    pub fn row(&self, b: u32) -> Lengths
        ensures answer { result ≡ row_read self.now.counts b }
    {
        self.counts.get(b as usize).copied().unwrap_or([0; LENGTHS])
    }

    /// Does a chain of any length lead down from the item?
    pub fn leads_from(&self, b: u32) -> bool
        ensures answer { result ≡ some (nat_lt 0) (row_read self.now.counts b) }
    {
        any_chain(&self.row(b))
    }
}

/// Is any number of the row not 0?
pub fn any_chain(row: &[u32]) -> bool
    ensures answer { result ≡ some (nat_lt 0) row.now }
{
    row.iter().any(|count| *count > 0)
}
