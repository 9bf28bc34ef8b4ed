//! Default marks.

ghost use Rattle.std.specs.Prelude.{◌≡◌, ℕ, ◌+◌, ◌<◌, ◌≤◌, if◌then◌else◌, nat_lt, slice_index};
ghost use Rattle.chains.specs.Chains.{count};
ghost use Rattle.chains.specs.Tests.{groupless};
ghost use Rattle.quick.specs.Sums.{RowLike, defaults_below};
ghost use Rattle.table.specs.Tables.{members_in};

use chains::{LENGTHS, MOST_ACCOUNTS};
use plans::any_chain;
use strategies::rows::DISTANCES;
use table::Table;

// Adds a row of chain counts, length by length.
fn add_row(row: &mut [u64; DISTANCES], ups: &[u32; LENGTHS])
    requires ups { (k : ℕ) → slice_index ups.now k ≤ 99999 }
    requires room { (d : ℕ) → d < 15 → slice_index row.old d ≤ 900000000000 }
    ensures sums { (d : ℕ) → d < 15 → slice_index row.new d ≡ slice_index row.old d + slice_index ups.now d }
{
    // By place: of elements that `iter_mut` lends, a proof knows the number alone.
    for (k, count) in ups.iter().enumerate() {
        row[k] += *count as u64;
    }
}

// Adds one default mark for each chain from the account, if it is a member of none.
fn add_default(row: &mut [u64; DISTANCES], table: &Table, a: usize, s: usize)
    requires top { a < table.now.accounts }
    requires end { s < table.now.accounts }
    requires room { (d : ℕ) → d < 15 → slice_index row.old d ≤ 900000000000 }
    ensures sums { (d : ℕ) → d < 15 → slice_index row.new d ≡ slice_index row.old d + (if groupless table.now.accounts (members_in table.now) a then (if nat_lt d 8 then count table.now.accounts (members_in table.now) a s d else 0) else 0) }
{
    let ups = table.row(a, s);
    if any_chain(&ups) && table.groupless(a) {
        add_row(row, &ups);
    }
}

/// How many default marks arrive over each distance, from accounts that are members of none and not held back.
pub fn default_row(table: &Table, held: &[bool; MOST_ACCOUNTS], s: usize) -> [u64; DISTANCES]
    requires end { s < table.now.accounts }
    ensures sums { (d : ℕ) → d < 15 → slice_index result d ≡ defaults_below table.now.accounts table.now.accounts (members_in table.now) held.now s d }
    ensures row { RowLike result }
{
    let mut row = [0; DISTANCES];
    // A loop over numbers: the table is asked by the account's number, and knows fewer accounts than `held` has places.
    for a in 0..table.accounts() {
        if !held[a] {
            add_default(&mut row, table, a, s);
        }
    }
    row
}
