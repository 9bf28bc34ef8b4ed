//! What the book holds and tells, compared number by number with what the lister says.

use crate::stop::{Stop, unless_different};
use crate::tally::Tally;
use lister::lister::{Counts, Lister};
use model::answer::Answer;
use model::grant::Grant;

/// How many counts the memory holds for each pair of accounts: of the lengths 0 to 7.
const TOLD: usize = 8;

// Compares the counts of all chains from one account: those listed, and those told.
fn same_line(listed: &[Counts], told: &[u32], tally: &mut Tally) -> bool {
    let mut same = true;
    for (ours, theirs) in listed.iter().zip(told.chunks(TOLD)) {
        for count in ours.iter().take(TOLD) {
            tally.largest_count = tally.largest_count.max(u64::from(*count));
        }
        same &= tally.same_each(ours.as_slice(), theirs);
    }
    same
}

// Compares the numbers from a place on with what lay there.
fn untouched(memory: &[u32], lent: &[u32], from: usize, tally: &mut Tally) -> bool {
    match (lent.get(from..), memory.get(from..)) {
        (Some(lay), Some(lies)) => tally.same_each(lay, lies) && memory.len() == lent.len(),
        _ => false,
    }
}

/// Stops where the memory does not hold the counts of all chains, and behind them what lay there; all of it is compared.
pub fn same_counts(
    lister: &Lister,
    memory: &[u32],
    lent: &[u32],
    tally: &mut Tally,
) -> Result<(), Stop> {
    let line = (lister.accounts as usize).wrapping_mul(TOLD);
    let mut start = 0usize;
    let mut same = true;
    for account in 0..lister.accounts {
        let counts = lister.counted_from(account)?;
        let end = start.wrapping_add(line);
        same &= match memory.get(start..end) {
            Some(told) => same_line(counts.as_slice(), told, tally),
            None => false,
        };
        start = end;
    }
    unless_different(untouched(memory, lent, start, tally) && same)
}

// Are the four numbers of both grants the same?
fn same_grant(listed: &Grant, told: &Grant, tally: &mut Tally) -> bool {
    tally.same_each(numbers_of(listed).as_slice(), numbers_of(told).as_slice())
}

// The four numbers of a grant.
fn numbers_of(grant: &Grant) -> [u32; 4] {
    [grant.account, grant.item, grant.right, grant.sign as u32]
}

/// Are the lists of grants the same, one by one?
pub fn same_grants(listed: &[Grant], told: &[Grant], tally: &mut Tally) -> bool {
    let mut same = tally.same(listed.len() as u64, told.len() as u64);
    for (ours, theirs) in listed.iter().zip(told) {
        same &= same_grant(ours, theirs, tally);
    }
    same
}

/// Are the answers the same: the sign, the marks at each distance, and the totals?
pub fn same_answer(listed: &Answer, told: &Answer, tally: &mut Tally) -> bool {
    let total = listed.plus_total.max(listed.minus_total);
    tally.largest_total = tally.largest_total.max(total);
    let sign = tally.same(u64::from(listed.sign as u32), u64::from(told.sign as u32));
    let plus = tally.same_each(listed.plus.as_slice(), told.plus.as_slice());
    let minus = tally.same_each(listed.minus.as_slice(), told.minus.as_slice());
    let default = tally.same_each(listed.default.as_slice(), told.default.as_slice());
    let plus_total = tally.same(listed.plus_total, told.plus_total);
    let minus_total = tally.same(listed.minus_total, told.minus_total);
    sign && plus && minus && default && plus_total && minus_total
}
