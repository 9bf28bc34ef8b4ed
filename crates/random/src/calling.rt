//! Calls at random, good ones and bad ones.

use crate::generator::Random;
use crate::picking::{any_access, any_pair};
use crate::setting::any_sign;
use lister::deciding::Parts;
use lister::lister::Lister;
use model::access::Access;
use model::call::Call;
use model::grant::Grant;

/// How often each kind of call is made, in relation to the others.
#[derive(Clone, Copy, PartialEq, Eq, Debug)]
pub struct Habit {
    pub joins: u32,
    pub leaves: u32,
    pub gives: u32,
    pub withdrawals: u32,
}

// A membership that stands, if the account at hand has members.
fn standing_pair(random: &mut Random, lister: &Lister) -> Option<(u32, u32)> {
    let group = random.below(lister.accounts);
    let members = lister.members.get(group as usize)?;
    let place = random.below((members.len() & 0xffff) as u32);
    let member = members.get(place as usize)?;
    Some((group, *member))
}

// What a grant that stands is for, if any does.
fn standing_access(random: &mut Random, lister: &Lister) -> Option<Access> {
    let place = random.below((lister.grants.len() & 0xffff) as u32);
    lister.grants.get(place as usize).map(Grant::access)
}

// Once in three times any of its kind, and otherwise one that stands, if one does.
fn mostly_standing<T: Copy, F: FnOnce(&mut Random) -> Option<T>>(
    random: &mut Random,
    any: T,
    standing: F,
) -> T
    requires { F.IsAlwaysCallable standing }
{
    if random.once_in(3) {
        any
    } else {
        standing(random).unwrap_or(any)
    }
}

// The end of a membership, most often of one that stands.
fn any_leaving(random: &mut Random, lister: &Lister) -> Call {
    let any = any_pair(random, lister.accounts);
    let (group, member) = mostly_standing(random, any, |random| standing_pair(random, lister));
    Call::Leave { group, member }
}

// A grant taken back, most often one that stands.
fn any_withdrawal(random: &mut Random, lister: &Lister, known: u32) -> Call {
    let any = any_access(random, lister.accounts, known);
    let access = mostly_standing(random, any, |random| standing_access(random, lister));
    Call::Withdraw { access }
}

// A grant that is given.
fn any_grant(random: &mut Random, accounts: u32, known: u32) -> Call {
    let access = any_access(random, accounts, known);
    Call::Give {
        grant: Grant {
            account: access.account,
            item: access.item,
            right: access.right,
            sign: any_sign(random),
        },
    }
}

// A question of any kind.
fn any_question(random: &mut Random, accounts: u32, known: u32, parts: Parts) -> Call {
    let access = any_access(random, accounts, known);
    let strategy = parts.strategy();
    match random.below(3) {
        0 => Call::Quick { access, strategy },
        1 => Call::Walked { access, strategy },
        _ => Call::Least {
            access,
            sign: any_sign(random),
        },
    }
}

/// A call of any kind, of a hundred so many as the habit says, and questions otherwise.
pub fn any_call(
    random: &mut Random,
    lister: &Lister,
    known: u32,
    habit: Habit,
    parts: Parts,
) -> Call {
    let pick = random.below(100);
    let leaves = habit.joins.saturating_add(habit.leaves);
    let gives = leaves.saturating_add(habit.gives);
    let withdrawals = gives.saturating_add(habit.withdrawals);
    if pick < habit.joins {
        let (group, member) = any_pair(random, lister.accounts);
        Call::Join { group, member }
    } else if pick < leaves {
        any_leaving(random, lister)
    } else if pick < gives {
        any_grant(random, lister.accounts, known)
    } else if pick < withdrawals {
        any_withdrawal(random, lister, known)
    } else {
        any_question(random, lister.accounts, known, parts)
    }
}
