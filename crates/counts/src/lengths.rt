//! Would a new membership make a chain longer than 7?

ghost use Rattle.std.specs.Prelude.{◌≡◌, ℕ, ◌+◌, ◌<◌, ◌≤◌, true, false};
ghost use Rattle.counts.specs.Rows.{TooFar};
ghost use Rattle.counts.specs.Views.{count_of};

use crate::reading::Counts;

impl<'a> Counts<'a> {
    /// The greatest length of a chain from `a` to `s`; 0 if there is none.
    fn longest(self, a: usize, s: usize) -> usize
        requires top { a < self.accounts }
        requires end { s < self.accounts }
        ensures bound { result < 8 }
        ensures above { (k : ℕ) → result < k → k < 8 → count_of self.entry a s k ≡ 0 }
        ensures some { 0 < result → 0 < count_of self.entry a s result }
    {
        self.row(a, s)
            .iter()
            .rposition(|count| *count > 0)
            .unwrap_or(0)
    }

    /// The greatest length of a chain from `c`.
    fn longest_from(self, c: usize) -> usize
        requires { c < self.accounts }
        ensures bound { result < 8 }
        ensures above { (s : ℕ) → s < self.entry.accounts → (k : ℕ) → result < k → k < 8 → count_of self.entry c s k ≡ 0 }
        ensures some { 0 < result → (s : ℕ) × (s < self.entry.accounts) × (0 < count_of self.entry c s result) }
    {
        // A loop and not a chain: an account is looked at only beyond the length that those before it came to.
        let mut most = 0;
        for s in 0..self.accounts {
            if self.leads_by(c, s, most + 1) {
                most = self.longest(c, s);
            }
        }
        most
    }

    /// Does a chain of `least` memberships or more lead to `p`?
    fn reached_by(self, p: usize, least: usize) -> bool
        requires { p < self.accounts }
        ensures yes { result ≡ true → (a : ℕ) × (k : ℕ) × (a < self.entry.accounts) × (least ≤ k) × (k < 8) × (0 < count_of self.entry a p k) }
        ensures no { result ≡ false → (a : ℕ) → a < self.entry.accounts → (k : ℕ) → least ≤ k → k < 8 → count_of self.entry a p k ≡ 0 }
    {
        (0..self.accounts).any(|a| self.leads_by(a, p, least))
    }

    /// Would a chain be longer than 7 if `c` became a member of `p`?
    pub fn is_too_long(self, p: usize, c: usize) -> bool
        requires group { p < self.accounts }
        requires member { c < self.accounts }
        requires own { (a : ℕ) → a < self.accounts → count_of self a a 0 ≡ 1 }
        ensures yes { result ≡ true → TooFar self.entry.numbers.now self.entry.accounts p c }
        ensures no { result ≡ false → (a s i j : ℕ) → a < self.entry.accounts → s < self.entry.accounts → i < 8 → j < 8 → 0 < count_of self.entry a p i → 0 < count_of self.entry c s j → i + 1 + j ≤ 7 }
    {
        self.reached_by(p, 7 - self.longest_from(c))
    }
}
