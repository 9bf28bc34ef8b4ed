//! The four steps from marks to one sign, taken one after the other on whole lists.

use std::alloc::{AllocError, Global};
use std::cmp::Ordering;
use strategies::marks::{Arrival, Mark, Sign};
use strategies::strategy::{DefaultRule, Locality, Majority, Strategy};

/// The parts of a strategy: any of the fifty-four settings.
#[derive(Clone, Copy, PartialEq, Eq, Debug)]
pub struct Parts {
    pub default: DefaultRule,
    pub locality: Locality,
    pub majority: Majority,
    pub preferred: Sign,
}

/// A sign that is left once default marks are settled, and its distance.
#[derive(Clone, Copy, PartialEq, Eq, Debug)]
pub struct Vote {
    pub sign: Sign,
    pub distance: usize,
}

/// How many of some signs are yeses, and how many are noes.
#[derive(Clone, Copy, PartialEq, Eq, Debug)]
pub struct Numbers {
    pub plus: u64,
    pub minus: u64,
}

impl Parts {
    /// The strategy that stands for them.
    pub fn strategy(self) -> Strategy {
        Strategy::standing_for(self.default, self.locality, self.majority, self.preferred)
    }
}

// What is left of a mark once default marks are settled.
fn sign_of(mark: Mark, rule: DefaultRule) -> Option<Sign> {
    match (mark, rule) {
        (Mark::Signed(sign), _) | (Mark::Default, DefaultRule::Counts(sign)) => Some(sign),
        (Mark::Default, DefaultRule::Dropped) => None,
    }
}

/// The first step: default marks count as a sign, or are dropped.
pub fn votes_of(
    heap: Global,
    rows: &[Arrival],
    rule: DefaultRule,
) -> Result<Vec<Vote>, AllocError> {
    rows.iter()
        .filter_map(|row| {
            let distance = row.distance;
            sign_of(row.mark, rule).map(|sign| Vote { sign, distance })
        })
        .collect(heap)
}

// The distance that decides, the least or the greatest of any sign; none where all do, or where there are none.
fn chosen_distance(votes: &[Vote], locality: Locality) -> Option<usize> {
    match locality {
        Locality::Anywhere => None,
        Locality::Nearest => votes.iter().map(|vote| vote.distance).min(),
        Locality::Farthest => votes.iter().map(|vote| vote.distance).max(),
    }
}

// The second step: the signs at the distance that decides, or all.
fn kept_of(heap: Global, votes: &[Vote], locality: Locality) -> Result<Vec<Vote>, AllocError> {
    let chosen = chosen_distance(votes, locality);
    votes
        .iter()
        .copied()
        .filter(|vote| chosen.is_none_or(|distance| vote.distance == distance))
        .collect(heap)
}

impl Numbers {
    /// The numbers of the signs.
    pub fn of(votes: &[Vote]) -> Numbers {
        let many = |sign| votes.iter().filter(|vote| vote.sign == sign).count() as u64;
        Numbers {
            plus: many(Sign::Plus),
            minus: many(Sign::Minus),
        }
    }

    // The sign of the larger number.
    fn larger(self) -> Option<Sign> {
        match self.plus.cmp(&self.minus) {
            Ordering::Greater => Some(Sign::Plus),
            Ordering::Less => Some(Sign::Minus),
            Ordering::Equal => None,
        }
    }

    // The only sign that there is.
    fn only(self) -> Option<Sign> {
        match (self.plus > 0, self.minus > 0) {
            (true, false) => Some(Sign::Plus),
            (false, true) => Some(Sign::Minus),
            _ => None,
        }
    }
}

/// The sign that the setting gives on the signs left after the first step: in the third step that of the larger number, and in
/// the fourth the only one that is kept, or the preferred one.
pub fn decide(heap: Global, votes: &[Vote], parts: Parts) -> Result<Sign, AllocError> {
    let kept = Numbers::of(kept_of(heap, votes, parts.locality)?.as_slice());
    let compared = match parts.majority {
        Majority::Skipped => None,
        Majority::Before => Numbers::of(votes).larger(),
        Majority::After => kept.larger(),
    };
    Ok(compared.or(kept.only()).unwrap_or(parts.preferred))
}
