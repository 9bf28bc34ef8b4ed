//! How many accounts a piece of memory has room for, and the counts of a table without memberships.

ghost use Rattle.std.specs.Prelude.{◌≡◌, ℕ, ◌<◌, ◌≤◌, slice_index};
ghost use Rattle.chains.specs.Table.{Holds, entry, size};
ghost use Rattle.counts.specs.Rows.{alone};
ghost use Rattle.counts.specs.Rooms.{Largest};

use chains::{LENGTHS, MOST_ACCOUNTS};

/// The largest number of accounts, up to 64, whose table fits into `len` counts.
pub fn largest(len: usize) -> usize
    ensures { Largest len result }
{
    (0..MOST_ACCOUNTS)
        .find(|n| (n + 1) * (n + 1) * LENGTHS > len)
        .unwrap_or(MOST_ACCOUNTS)
}

/// Writes the counts of `n` accounts without memberships.
pub fn clear(counts: &mut [u32], n: usize)
    requires { Holds n counts.old }
    ensures within { (a s k : ℕ) → a < n → s < n → k < 8 → entry counts.new n a s k ≡ alone a s k }
    ensures behind { (q : ℕ) → size n ≤ q → slice_index counts.new q ≡ slice_index counts.old q }
{
    counts[..n * n * LENGTHS].fill(0);
    // By place: one count in every so many is 1.
    for a in 0..n {
        counts[(a * n + a) * LENGTHS] = 1;
    }
}
