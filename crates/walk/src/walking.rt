// The walk: from every account down the memberships, level by level.
ghost use Rattle.std.specs.Prelude.{◌≡◌, ℕ, ◌<◌, ◌≤◌, true, get_or, if◌then◌else◌};
ghost use Rattle.chains.specs.Table.{shown_members};
ghost use Rattle.walk.specs.Walked.{Walked};
ghost use Rattle.walk.specs.Levels.{down};

use crate::weight::Weight;
use chains::{LENGTHS, MOST_ACCOUNTS};
use counts::reading::Counts;

// The most memberships that a chain can have.
const LONGEST: usize = LENGTHS - 1;

// Adds the weight to each member of the group.
fn spread<W: Weight + Copy>(
    counts: Counts,
    group: usize,
    weight: &W,
    below: &mut [W; MOST_ACCOUNTS],
)
    requires { group < counts.accounts }
    ensures { (m : ℕ) → m < counts.entry.accounts → get_or below.new m W.nothing ≡ (if shown_members counts.entry.accounts counts.entry.numbers.now group m then W.plus (get_or below.old m W.nothing) weight.now else get_or below.old m W.nothing) }
{
    // A loop over numbers: a number is the account that `shows` is asked of.
    for m in 0..counts.accounts {
        if counts.shows(group, m) {
            below[m] = below[m].plus(weight);
        }
    }
}

// The weights one level further down.
fn level_below<W: Weight + Copy>(counts: Counts, level: &[W; MOST_ACCOUNTS]) -> [W; MOST_ACCOUNTS]
    ensures { (m : ℕ) → m < counts.entry.accounts → get_or result m W.nothing ≡ down W.nothing W.plus W.stepped counts.entry.accounts (shown_members counts.entry.accounts counts.entry.numbers.now) (λ g. get_or level.now g W.nothing) m }
{
    let mut below = [W::nothing(); MOST_ACCOUNTS];
    // A loop over numbers: a number is the group whose members `spread` looks for.
    for g in 0..counts.accounts {
        if !level[g].is_nothing() {
            let next = level[g].step();
            spread(counts, g, &next, &mut below);
        }
    }
    below
}

// Whether no account has anything to carry on.
fn is_empty<W: Weight + Copy>(accounts: usize, level: &[W; MOST_ACCOUNTS]) -> bool
    requires { accounts ≤ 64 }
    ensures { result ≡ true → (m : ℕ) → m < accounts → get_or level.now m W.nothing ≡ W.nothing }
{
    level[..accounts].iter().all(|weight| weight.is_nothing())
}

/// The sum, over all chains down to the account `s`, of the starting weight of the chain's top stepped once for each membership.
///
/// Of the chain counts only the memberships, the counts at length 1, are read. Alters nothing.
pub fn walk<W: Weight + Copy>(counts: Counts, start: &[W; MOST_ACCOUNTS], s: usize) -> W
    requires { s < counts.accounts }
    ensures { Walked W.nothing W.plus W.stepped counts.entry.accounts (shown_members counts.entry.accounts counts.entry.numbers.now) (λ a. get_or start.now a W.nothing) s result }
{
    let mut level = *start;
    let mut sum = level[s];
    for _k in 0..LONGEST {
        if is_empty(counts.accounts, &level) {
            return sum;
        }
        level = level_below(counts, &level);
        let here = level[s];
        sum = sum.plus(&here);
    }
    sum
}
