//! The counts changed in place by the chains that go past a membership. Rows to which no such chain leads are skipped.

ghost use Rattle.std.specs.Prelude.{◌≡◌, ℕ, ◌+◌, ◌*◌, ◌<◌, ◌≤◌, length, ◌≢◌, slice_index};
ghost use Rattle.chains.specs.Table.{Holds, entry, size};
ghost use Rattle.counts.specs.Changes.{AllAllowed, Allowed, Way, changed, ended, made, updated};
ghost use Rattle.counts.specs.Rows.{Low, LowTable, at_of, through};

use crate::reading::Counts;
use crate::sums::through_at;
use chains::LENGTHS;

/// What becomes of the counts when a membership is made, or ends.
pub trait Change {
    // Is it made, or does it end?
    ghost way: { Way };

    /// The count with the chains past the membership added or taken away.
    fn apply(count: u32, chains: u64) -> u32
        requires { Allowed way count chains }
        ensures { result ≡ changed way count chains };
}

/// A membership is made.
#[derive(Clone, Copy)]
pub struct Add;

impl Change for Add {
    ghost way = { made };

    fn apply(count: u32, chains: u64) -> u32 {
        (count as u64 + chains) as u32
    }
}

/// A membership ends.
#[derive(Clone, Copy)]
pub struct Strike;

impl Change for Strike {
    ghost way = { ended };

    fn apply(count: u32, chains: u64) -> u32 {
        (count as u64 - chains) as u32
    }
}

/// Changes the counts at `at` by the chains past a membership. The count at length 0 stays.
fn change_row<C: Change>(counts: &mut [u32], at: usize, up: &[u32; LENGTHS], down: &[u32; LENGTHS])
    requires fits { at + 8 ≤ length counts.old }
    requires up_low { Low up.now }
    requires down_low { Low down.now }
    requires allowed { (k : ℕ) → k < 8 → Allowed C.way (slice_index counts.old (at + k)) (through (at_of up.now) (at_of down.now) k) }
    ensures sums { (k : ℕ) → k < 8 → slice_index counts.new (at + k) ≡ changed C.way (slice_index counts.old (at + k)) (through (at_of up.now) (at_of down.now) k) }
    ensures before { (q : ℕ) → q < at → slice_index counts.new q ≡ slice_index counts.old q }
    ensures behind { (q : ℕ) → at + 8 ≤ q → slice_index counts.new q ≡ slice_index counts.old q }
{
    // A loop over lengths and not over the counts: the sum asks for the length, and after `iter_mut` the proof knows the places no more.
    for k in 1..LENGTHS {
        counts[at + k] = C::apply(counts[at + k], through_at(up, down, k));
    }
}

// A slice and a number, and no struct of both: between two changes the loops read the same numbers by a view.

/// Changes the counts from `a` by the chains that go down to the group by `up`, and then from the member `c`.
fn change_line<C: Change>(counts: &mut [u32], n: usize, a: usize, c: usize, up: &[u32; LENGTHS])
    requires table { Holds n counts.old }
    requires top { a < n }
    requires member { c < n }
    requires apart { a ≢ c }
    requires up_low { Low up.now }
    requires low { LowTable n counts.old }
    requires allowed { (s k : ℕ) → s < n → k < 8 → Allowed C.way (entry counts.old n a s k) (through (at_of up.now) (entry counts.old n c s) k) }
    ensures sums { (s k : ℕ) → s < n → k < 8 → entry counts.new n a s k ≡ changed C.way (entry counts.old n a s k) (through (at_of up.now) (entry counts.old n c s) k) }
    ensures before { (q : ℕ) → q < a * n * 8 → slice_index counts.new q ≡ slice_index counts.old q }
    ensures behind { (q : ℕ) → (a * n + n) * 8 ≤ q → slice_index counts.new q ≡ slice_index counts.old q }
{
    // A loop over numbers: a number is the account that the view is asked of, and the counts change between.
    for s in 0..n {
        let view = Counts {
            numbers: counts,
            accounts: n,
        };
        if view.leads_by(c, s, 0) {
            let down = *view.row(c, s);
            change_row::<C>(counts, (a * n + s) * LENGTHS, up, &down);
        }
    }
}

/// Changes all counts by the chains past the membership of `c` in `p`.
// A function of its own in the program too: its loops want all registers, and where a join's tests are inlined beside them, they are slower by a quarter.
#[inline(never)]
pub fn change_all<C: Change>(counts: &mut [u32], n: usize, p: usize, c: usize)
    requires table { Holds n counts.old }
    requires group { p < n }
    requires member { c < n }
    requires low { LowTable n counts.old }
    requires no_circle { (k : ℕ) → k < 8 → entry counts.old n c p k ≡ 0 }
    requires allowed { AllAllowed C.way counts.old n p c }
    ensures sums { (a s k : ℕ) → a < n → s < n → k < 8 → entry counts.new n a s k ≡ updated C.way counts.old n p c a s k }
    ensures behind { (q : ℕ) → size n ≤ q → slice_index counts.new q ≡ slice_index counts.old q }
{
    // A loop over numbers: a number is the account that the view is asked of, and the counts change between.
    for a in 0..n {
        let view = Counts {
            numbers: counts,
            accounts: n,
        };
        if view.leads_by(a, p, 0) {
            let up = *view.row(a, p);
            change_line::<C>(counts, n, a, c, &up);
        }
    }
}
