//! The chains that go past a membership, and whether a count would pass the limit with them.

ghost use Rattle.std.specs.Prelude.{◌≡◌, ℕ, ◌+◌, ◌<◌, ◌≤◌, true, false, slice_index};
ghost use Rattle.counts.specs.Rows.{Low, LowTable, Passing, at_of, count_after, through};

use crate::reading::Counts;
use chains::{LENGTHS, MOST_CHAINS};

/// How many chains of length `k` go past a membership, with `up` chains to its group and `down` chains from its
/// member.
pub(crate) fn through_at(up: &[u32; LENGTHS], down: &[u32; LENGTHS], k: usize) -> u64
    requires length { k < 8 }
    requires up_low { Low up.now }
    requires down_low { Low down.now }
    ensures sum { result ≡ through (at_of up.now) (at_of down.now) k }
    ensures bound { result ≤ 69998600007 }
{
    (0..k).map(|i| up[i] as u64 * down[k - 1 - i] as u64).sum()
}

/// Would one of the eight counts of `row` pass the limit with the chains past a new membership added?
fn row_passes(row: &[u32; LENGTHS], up: &[u32; LENGTHS], down: &[u32; LENGTHS]) -> bool
    requires low { Low row.now }
    requires up_low { Low up.now }
    requires down_low { Low down.now }
    ensures yes { result ≡ true → (k : ℕ) × (k < 8) × (99999 < slice_index row.now k + through (at_of up.now) (at_of down.now) k) }
    ensures no { result ≡ false → (k : ℕ) → k < 8 → slice_index row.now k + through (at_of up.now) (at_of down.now) k ≤ 99999 }
{
    (1..LENGTHS).any(|k| row[k] as u64 + through_at(up, down, k) > MOST_CHAINS as u64)
}

impl<'a> Counts<'a> {
    /// Would a count from `a` to `s` pass the limit if `c` became a member of `p`?
    fn pair_passes(self, a: usize, s: usize, p: usize, c: usize) -> bool
        requires top { a < self.accounts }
        requires end { s < self.accounts }
        requires group { p < self.accounts }
        requires member { c < self.accounts }
        requires low { LowTable self.accounts self.numbers.now }
        ensures yes { result ≡ true → (k : ℕ) × (k < 8) × (99999 < count_after self.entry.numbers.now self.entry.accounts p c a s k) }
        ensures no { result ≡ false → (k : ℕ) → k < 8 → count_after self.entry.numbers.now self.entry.accounts p c a s k ≤ 99999 }
    {
        self.leads_by(c, s, 0) && row_passes(self.row(a, s), self.row(a, p), self.row(c, s))
    }

    /// Would a count from `a` pass the limit if `c` became a member of `p`?
    fn line_passes(self, a: usize, p: usize, c: usize) -> bool
        requires top { a < self.accounts }
        requires group { p < self.accounts }
        requires member { c < self.accounts }
        requires low { LowTable self.accounts self.numbers.now }
        ensures yes { result ≡ true → (s : ℕ) × (k : ℕ) × (s < self.entry.accounts) × (k < 8) × (99999 < count_after self.entry.numbers.now self.entry.accounts p c a s k) }
        ensures no { result ≡ false → (s : ℕ) → s < self.entry.accounts → (k : ℕ) → k < 8 → count_after self.entry.numbers.now self.entry.accounts p c a s k ≤ 99999 }
    {
        self.leads_by(a, p, 0) && (0..self.accounts).any(|s| self.pair_passes(a, s, p, c))
    }

    /// Would a count pass the limit if `c` became a member of `p`?
    pub fn passes(self, p: usize, c: usize) -> bool
        requires group { p < self.accounts }
        requires member { c < self.accounts }
        requires low { LowTable self.accounts self.numbers.now }
        ensures yes { result ≡ true → Passing self.entry.numbers.now self.entry.accounts p c }
        ensures no { result ≡ false → (a : ℕ) → a < self.entry.accounts → (s : ℕ) → s < self.entry.accounts → (k : ℕ) → k < 8 → count_after self.entry.numbers.now self.entry.accounts p c a s k ≤ 99999 }
    {
        (0..self.accounts).any(|a| self.line_passes(a, p, c))
    }
}
