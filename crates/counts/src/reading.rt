//! Reading counts and rows of counts from a table.

ghost use Rattle.std.specs.Prelude.{◌≡◌, ℕ, ◌<◌, ◌≤◌, true, false};
ghost use Rattle.chains.specs.Table.{Holds, shown_members};
ghost use Rattle.counts.specs.Rows.{row};

use chains::LENGTHS;

/// The chain counts of `accounts` accounts, at the front of a list of numbers, to be read.
///
/// The count of the chains of length k from a down to s stands at place (a * accounts + s) * 8 + k.
#[derive(Clone, Copy)]
pub struct Counts<'a> {
    pub numbers: &'a [u32],
    pub accounts: usize,
    ghost holds: { Holds accounts numbers.now },
}

impl<'a> Counts<'a> {
    ghost use Rattle.counts.specs.Views.{count_of};

    /// The count from `a` to `s` at length `k`.
    pub fn count(self, a: usize, s: usize, k: usize) -> u32
        requires top { a < self.accounts }
        requires end { s < self.accounts }
        requires length { k < 8 }
        ensures { result ≡ count_of self.entry a s k }
    {
        self.numbers[(a * self.accounts + s) * LENGTHS + k]
    }

    /// The eight counts from `a` to `s`, by length.
    pub fn row(self, a: usize, s: usize) -> &'a [u32; LENGTHS]
        requires top { a < self.accounts }
        requires end { s < self.accounts }
        ensures { result.now ≡ row self.entry.numbers.now self.entry.accounts a s }
    {
        let at = (a * self.accounts + s) * LENGTHS;
        <&[u32; LENGTHS]>::try_from(&self.numbers[at..at + LENGTHS]).unwrap()
    }

    /// Do the counts show the membership? A chain of length 1 leads from the group to the member.
    pub fn shows(self, group: usize, member: usize) -> bool
        requires group { group < self.accounts }
        requires member { member < self.accounts }
        ensures { result ≡ shown_members self.entry.accounts self.entry.numbers.now group member }
    {
        self.count(group, member, 1) > 0
    }

    /// Does a chain of `least` memberships or more lead from `a` to `s`?
    pub fn leads_by(self, a: usize, s: usize, least: usize) -> bool
        requires top { a < self.accounts }
        requires end { s < self.accounts }
        ensures yes { result ≡ true → (k : ℕ) × (least ≤ k) × (k < 8) × (0 < count_of self.entry a s k) }
        ensures no { result ≡ false → (k : ℕ) → least ≤ k → k < 8 → count_of self.entry a s k ≡ 0 }
    {
        (least..LENGTHS).any(|k| self.count(a, s, k) > 0)
    }
}
