//! Adding up pairs of an account chain and an item chain, by the sum of their lengths.

ghost use Rattle.std.specs.Prelude.{◌≡◌, ℕ, ◌+◌, ◌<◌, ◌≤◌, slice_index};
ghost use Rattle.model.specs.Counted.{products};
ghost use Rattle.quick.specs.Sums.{at_of, shifted};

use chains::LENGTHS;
use strategies::rows::DISTANCES;

// Adds, for each length of an item chain, the pairs with `times` account chains of length `up`.
fn add_shifted(row: &mut [u64; DISTANCES], up: usize, times: u64, lengths: &[u32; LENGTHS])
    requires up { up < 8 }
    requires times { times ≤ 99999 }
    requires small { (j : ℕ) → slice_index lengths.now j ≤ 128 }
    requires room { (d : ℕ) → d < 15 → slice_index row.old d ≤ 1000000000000 }
    ensures sums { (d : ℕ) → d < 15 → slice_index row.new d ≡ slice_index row.old d + shifted up times (at_of lengths.now) d }
{
    for (j, count) in lengths.iter().enumerate() {
        row[up + j] += times * *count as u64;
    }
}

/// Adds the pairs of an account chain and an item chain at each sum of their lengths.
pub fn add_pairs(row: &mut [u64; DISTANCES], ups: &[u32; LENGTHS], lengths: &[u32; LENGTHS])
    requires ups { (i : ℕ) → slice_index ups.now i ≤ 99999 }
    requires small { (j : ℕ) → slice_index lengths.now j ≤ 128 }
    requires room { (d : ℕ) → d < 15 → slice_index row.old d ≤ 900000000000 }
    ensures sums { (d : ℕ) → d < 15 → slice_index row.new d ≡ slice_index row.old d + products (at_of ups.now) (at_of lengths.now) d }
{
    for (i, count) in ups.iter().enumerate() {
        if *count > 0 {
            add_shifted(row, i, *count as u64, lengths);
        }
    }
}
