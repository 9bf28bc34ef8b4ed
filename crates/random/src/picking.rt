//! Accounts, items and rights at random, good ones and bad ones.

use crate::generator::Random;
use model::access::Access;

// A number from `end` on: right behind it, some way behind it, or the largest.
fn too_large(random: &mut Random, end: u32) -> u32 {
    match random.below(4) {
        0 => end,
        1 => u32::MAX.wrapping_sub(random.below(3)),
        _ => end.saturating_add(random.below(90_000)),
    }
}

// An account, often the first or the last, and sometimes an unknown one.
fn any_account(random: &mut Random, accounts: u32) -> u32 {
    if random.once_in(30) {
        return too_large(random, accounts);
    }
    match random.below(6) {
        0 => 0,
        1 => accounts.saturating_sub(1),
        _ => random.below(accounts),
    }
}

// A group and a member: most often so that no circle arises, and often neighbours, so that long chains do.
pub(crate) fn any_pair(random: &mut Random, accounts: u32) -> (u32, u32) {
    let a = any_account(random, accounts);
    let b = random.below(accounts);
    match random.below(8) {
        0 => (a, b),
        1 | 2 => (b, b.saturating_add(1)),
        _ => (a.min(b), a.max(b)),
    }
}

// An item: of few, of those that are known, or any; sometimes there is no such item.
fn any_item(random: &mut Random, known: u32) -> u32 {
    if random.once_in(30) {
        return too_large(random, 256);
    }
    match random.below(4) {
        0 => random.below(256),
        1 => random.below(known),
        _ => random.below(12),
    }
}

// A right: most often 0 or 4, of which one is asked over each plan; sometimes there is no such right.
fn any_right(random: &mut Random) -> u32 {
    if random.once_in(30) {
        return too_large(random, 8);
    }
    if random.once_in(4) {
        random.below(8)
    } else {
        random.below(2).wrapping_mul(4)
    }
}

// What a grant may be for, or a question about.
pub(crate) fn any_access(random: &mut Random, accounts: u32, known: u32) -> Access {
    Access {
        account: any_account(random, accounts),
        item: any_item(random, known),
        right: any_right(random),
    }
}
