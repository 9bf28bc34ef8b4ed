//! Each call is made on the book and on the lister, and what both give is compared.

use crate::chart::Chart;
use crate::comparing::{same_answer, same_grants};
use crate::stop::{Stop, unless_different};
use crate::tally::Tally;
use book::Book;
use lister::deciding::Parts;
use lister::lister::Lister;
use lister::listing::least_of;
use lister::refused::{Refused, Stopped};
use model::access::Access;
use model::call::Call;
use model::refusal::Refusal;
use plans::{Channels, Plan};
use std::alloc::AllocError;
use strategies::marks::Arrival;

// The number of the lister's refusal, or 0.
// By `as` and not by `Numbered`: the trait would need the twelve numbers a second time, in a definition.
fn number_listed(reply: Result<(), Refused>) -> u32 {
    reply.err().map_or(0, |refused| refused as u32)
}

// The same, unless there was no memory for the lists.
fn number_unless_full(reply: Result<(), Stopped>) -> Result<u32, AllocError> {
    match reply {
        Ok(()) => Ok(0),
        Err(Stopped::Refused(refused)) => Ok(refused as u32),
        Err(Stopped::NoMemory(error)) => Err(error),
    }
}

// Makes a call that changes what stands, on the book and on the lister, and compares what it came to and the grants that stand after it.
fn change(book: &mut Book, lister: &mut Lister, call: Call, tally: &mut Tally) -> Result<(), Stop> {
    let (listed, told) = match call {
        Call::Join { group, member } => (
            number_unless_full(lister.join(group, member))?,
            book.join(group, member),
        ),
        Call::Leave { group, member } => (
            number_listed(lister.leave(group, member)),
            book.leave(group, member),
        ),
        Call::Give { grant } => (number_unless_full(lister.give(grant))?, book.grant(grant)),
        Call::Withdraw { access } => (
            number_listed(lister.withdraw(access)),
            book.withdraw(access),
        ),
        _ => (0, Ok(())),
    };
    let answer = tally.same_refusal(listed, told.err());
    unless_different(same_grants(lister.grants.as_slice(), book.grants(), tally) && answer)
}

// A question that is put to the book and to the lister, and the plan that it is put over.
#[derive(Clone, Copy)]
struct Asked<'a, P> {
    lister: &'a Lister,
    plan: &'a P,
    access: Access,
}

impl<P: Plan> Asked<'_, P> {
    // Compares what the book told, or its refusal: what was told is compared with the lister's rows by the function.
    fn compare<T: Copy, F: FnOnce(&[Arrival], T, &mut Tally) -> Result<bool, AllocError>>(
        &self,
        told: Result<T, Refusal>,
        same: F,
        tally: &mut Tally,
    ) -> Result<(), Stop>
        requires { F.IsAlwaysCallable same }
    {
        let known = self.plan.known(self.access.item);
        let listed = number_listed(self.lister.may_be_asked(self.access, known));
        match told {
            Err(refusal) => unless_different(tally.same_refusal(listed, Some(refusal))),
            Ok(told) => {
                let rows = self.lister.rows(self.plan, self.access)?;
                let accepted = tally.same(u64::from(listed), 0);
                unless_different(same(rows.as_slice(), told, tally)? && accepted)
            }
        }
    }
}

// Compares the least distances; 15 stands for none.
fn same_least(listed: Option<usize>, told: Option<u8>, tally: &mut Tally) -> bool {
    tally.same(listed.unwrap_or(15) as u64, u64::from(told.unwrap_or(15)))
}

// Puts a question over a plan, to the book and to the lister.
fn ask<P: Plan>(
    book: &Book,
    lister: &Lister,
    plan: &P,
    call: Call,
    access: Access,
    parts: Parts,
    tally: &mut Tally,
) -> Result<(), Stop> {
    let question = Asked {
        lister,
        plan,
        access,
    };
    let answer = |rows: &[Arrival], told, tally: &mut Tally| {
        Ok(same_answer(&lister.answer(rows, parts)?, &told, tally))
    };
    match call {
        Call::Quick { strategy, .. } => {
            tally.quick = tally.quick.wrapping_add(1);
            let told = book.quick(plan, access, strategy);
            question.compare(told, answer, tally)
        }
        Call::Walked { strategy, .. } => {
            tally.walked = tally.walked.wrapping_add(1);
            let told = book.walked(plan, access, strategy);
            question.compare(told, answer, tally)
        }
        Call::Least { sign, .. } => {
            tally.least = tally.least.wrapping_add(1);
            let told = book.least(plan, access, sign);
            let distance = |rows: &[Arrival], told, tally: &mut Tally| {
                Ok(same_least(least_of(rows, sign), told, tally))
            };
            question.compare(told, distance, tally)
        }
        _ => Ok(()),
    }
}

// The account, the item and the right of a question; none of another call.
fn access_asked(call: Call) -> Option<Access> {
    match call {
        Call::Quick { access, .. } | Call::Walked { access, .. } | Call::Least { access, .. } => {
            Some(access)
        }
        _ => None,
    }
}

/// Makes a call. Questions on rights 0 to 3 are put over the equipment table, others over the channel plan.
pub fn make_call(
    book: &mut Book,
    chart: &mut Chart,
    call: Call,
    parts: Parts,
    tally: &mut Tally,
) -> Result<(), Stop> {
    tally.calls = tally.calls.wrapping_add(1);
    chart.calls.push(call)?;
    match access_asked(call) {
        None => change(book, &mut chart.lister, call, tally),
        Some(access) if access.right < 4 => {
            ask(
                book,
                &chart.lister,
                &chart.equipment,
                call,
                access,
                parts,
                tally,
            )
        }
        Some(access) => ask(book, &chart.lister, &Channels, call, access, parts, tally),
    }
}
