//! The sign that a strategy gives on counted marks.

ghost use Rattle.std.specs.Prelude.{◌≡◌, ℕ, ◌<◌, ◌≤◌, List, MatchOption, nat_lt};
ghost use Rattle.lists.specs.Lists.{sum_below};
ghost use Rattle.strategies.specs.Resolve.{votes, chosen, tally, single, larger, decided};
ghost use Rattle.strategies.specs.Rows.{CountsOf, votes_at, any_at};
ghost use Rattle.strategies.specs.declared.marks.Arrival.{Arrival};
ghost use Rattle.strategies.specs.declared.marks.Sign.TheVariants.{Plus, Minus};

use crate::marks::{Mark, Sign};
use crate::rows::{DISTANCES, Rows};
use crate::strategy::{DefaultRule, Locality, Majority, Strategy};
use std::cmp::Ordering;

/// What a strategy reads off the marks.
#[derive(Clone, Copy, PartialEq, Eq, Debug)]
pub struct Resolved {
    pub sign: Sign,
    pub plus_total: u64,
    pub minus_total: u64,
}

// Counted marks, and what a default mark counts as: default marks are settled.
#[derive(Clone, Copy)]
struct Settled<'a> {
    rows: &'a Rows,
    rule: DefaultRule,
}

// The numbers of votes of both signs.
#[derive(Clone, Copy)]
struct Tally {
    plus: u64,
    minus: u64,
}

impl Settled<'_> {
    // How many votes of the sign are left at the distance.
    fn votes_at(&self, sign: Sign, distance: usize) -> u64
        ensures value { result ≡ votes_at self.now.rule sign self.now.rows.now distance }
        ensures small { result ≤ 2000000000000 }
    {
        let signed = self.rows.at(Mark::Signed(sign), distance);
        match self.rule {
            DefaultRule::Counts(counted) if counted == sign => {
                signed + self.rows.at(Mark::Default, distance)
            }
            _ => signed,
        }
    }

    // How many votes of the sign are left at all distances.
    fn total(&self, sign: Sign) -> u64
        ensures { result ≡ sum_below 15 (votes_at self.now.rule sign self.now.rows.now) }
    {
        (0..DISTANCES)
            .map(|distance| self.votes_at(sign, distance))
            .sum()
    }

    // Is a vote of either sign left at the distance?
    fn any_at(&self, distance: usize) -> bool
        ensures { result ≡ nat_lt 0 (any_at self.now.rule self.now.rows.now distance) }
    {
        self.votes_at(Sign::Plus, distance) + self.votes_at(Sign::Minus, distance) > 0
    }

    // The least distance at which a vote is left.
    fn nearest(&self) -> Option<usize>
        ensures { MatchOption result ((k : ℕ) → k < 15 → any_at self.now.rule self.now.rows.now k ≡ 0) (λ d. (0 < any_at self.now.rule self.now.rows.now d) × ((k : ℕ) → k < d → any_at self.now.rule self.now.rows.now k ≡ 0)) }
    {
        (0..DISTANCES).find(|distance| self.any_at(*distance))
    }

    // The greatest distance at which a vote is left.
    fn farthest(&self) -> Option<usize>
        ensures { MatchOption result ((k : ℕ) → k < 15 → any_at self.now.rule self.now.rows.now k ≡ 0) (λ d. (0 < any_at self.now.rule self.now.rows.now d) × ((k : ℕ) → d < k → k < 15 → any_at self.now.rule self.now.rows.now k ≡ 0)) }
    {
        (0..DISTANCES).rfind(|distance| self.any_at(*distance))
    }

    // The votes at all distances.
    fn everywhere(&self) -> Tally
        ensures plus { (l : List Arrival) → CountsOf self.now.rows.now l → result.plus ≡ tally Plus (votes self.now.rule l) }
        ensures minus { (l : List Arrival) → CountsOf self.now.rows.now l → result.minus ≡ tally Minus (votes self.now.rule l) }
    {
        Tally {
            plus: self.total(Sign::Plus),
            minus: self.total(Sign::Minus),
        }
    }

    // The votes at one distance: none without a distance.
    fn only_at(&self, distance: Option<usize>) -> Tally
        ensures plus { MatchOption distance (result.plus ≡ 0) (λ d. result.plus ≡ votes_at self.now.rule Plus self.now.rows.now d) }
        ensures minus { MatchOption distance (result.minus ≡ 0) (λ d. result.minus ≡ votes_at self.now.rule Minus self.now.rows.now d) }
    {
        // A match and no `map_or`: of what a closure gives to both fields, the clauses did not close.
        match distance {
            Some(d) => Tally {
                plus: self.votes_at(Sign::Plus, d),
                minus: self.votes_at(Sign::Minus, d),
            },
            None => Tally { plus: 0, minus: 0 },
        }
    }

    // The votes at the distance that is chosen.
    #[tactic(auto, unfolding(crate::specs::Resolve::chosen))]
    fn local(&self, locality: Locality) -> Tally
        ensures plus { (l : List Arrival) → CountsOf self.now.rows.now l → result.plus ≡ tally Plus (chosen locality (votes self.now.rule l)) }
        ensures minus { (l : List Arrival) → CountsOf self.now.rows.now l → result.minus ≡ tally Minus (chosen locality (votes self.now.rule l)) }
    {
        match locality {
            Locality::Anywhere => self.everywhere(),
            Locality::Nearest => self.only_at(self.nearest()),
            Locality::Farthest => self.only_at(self.farthest()),
        }
    }
}

impl Tally {
    // A single sign, or the preferred one.
    fn single(self, preferred: Sign) -> Sign
        ensures { result ≡ single preferred self.plus self.minus }
    {
        match (self.plus > 0, self.minus > 0) {
            (true, false) => Sign::Plus,
            (false, true) => Sign::Minus,
            _ => preferred,
        }
    }

    // The sign with the larger number, or else the rest.
    fn larger(self, rest: Sign) -> Sign
        ensures { result ≡ larger self.plus self.minus rest }
    {
        match self.plus.cmp(&self.minus) {
            Ordering::Greater => Sign::Plus,
            Ordering::Less => Sign::Minus,
            Ordering::Equal => rest,
        }
    }
}

/// The sign that the strategy gives, and the totals once default marks are settled.
#[tactic(auto, using(crate::proofs::Listed::any_rows_count), unfolding(crate::specs::Resolve::resolve))]
pub fn resolve(rows: &Rows, strategy: Strategy) -> Resolved
    ensures counted { (l : List Arrival) × CountsOf rows.now l }
    ensures sign { (l : List Arrival) → CountsOf rows.now l → result.sign ≡ decided strategy l }
    ensures plus { (l : List Arrival) → CountsOf rows.now l → result.plus_total ≡ tally Plus (votes strategy.default l) }
    ensures minus { (l : List Arrival) → CountsOf rows.now l → result.minus_total ≡ tally Minus (votes strategy.default l) }
{
    let settled = Settled {
        rows,
        rule: strategy.default,
    };
    let every = settled.everywhere();
    let kept = settled.local(strategy.locality);
    let rest = kept.single(strategy.preferred);
    let sign = match strategy.majority {
        Majority::Skipped => rest,
        Majority::Before => every.larger(rest),
        Majority::After => kept.larger(rest),
    };
    Resolved {
        sign,
        plus_total: every.plus,
        minus_total: every.minus,
    }
}
