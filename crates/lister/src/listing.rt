//! What the lister answers to a question: every mark in a list, one row for each pair of chains, and the list counted.

use crate::deciding::{Numbers, Parts, decide, votes_of};
use crate::every_chain::{Chain, item_chains};
use crate::lister::Lister;
use model::access::Access;
use model::answer::Answer;
use plans::Plan;
use std::alloc::AllocError;
use strategies::marks::{Arrival, Mark, Sign};

// Distances are 0 to 14: a number of the lister's own, and not the book's constant.
const DISTANCES: usize = 15;

impl Lister {
    // Adds a row for each chain from the account to `to`, at its length and so much more.
    fn add_rows(
        &self,
        from: u32,
        to: u32,
        mark: Mark,
        more: usize,
        rows: &mut Vec<Arrival>,
    ) -> Result<(), AllocError> {
        let chains = self.chains_from(from)?;
        for chain in chains.iter().filter(|chain| chain.end == to) {
            let distance = chain.length.wrapping_add(more);
            rows.push(Arrival { mark, distance })?;
        }
        Ok(())
    }

    // Is the account a member of none?
    fn groupless(&self, account: u32) -> bool {
        (0..self.accounts).all(|group| !self.stands(group, account))
    }

    // Does the account hold a grant of the right on one of the items?
    fn holds(&self, account: u32, right: u32, items: &[Chain]) -> bool {
        self.grants.iter().any(|grant| {
            grant.account == account
                && grant.right == right
                && items.iter().any(|item| item.end == grant.item)
        })
    }

    // Adds the rows of every grant of the right: one for each pair of an account chain and an item chain.
    fn add_signed(
        &self,
        account: u32,
        right: u32,
        items: &[Chain],
        rows: &mut Vec<Arrival>,
    ) -> Result<(), AllocError> {
        for grant in self.grants.iter().filter(|grant| grant.right == right) {
            let mark = Mark::Signed(grant.sign);
            for item in items.iter().filter(|item| item.end == grant.item) {
                self.add_rows(grant.account, account, mark, item.length, rows)?;
            }
        }
        Ok(())
    }

    /// Every mark that reaches the account on the item for the right.
    pub fn rows<P: Plan>(&self, plan: &P, access: Access) -> Result<Vec<Arrival>, AllocError> {
        let mut rows = Vec::new(self.heap);
        let items = item_chains(self.heap, plan, access.item)?;
        let items = items.as_slice();
        self.add_signed(access.account, access.right, items, &mut rows)?;
        for other in 0..self.accounts {
            if self.groupless(other) && !self.holds(other, access.right, items) {
                self.add_rows(other, access.account, Mark::Default, 0, &mut rows)?;
            }
        }
        Ok(rows)
    }

    /// The answer that the setting gives on the rows.
    pub fn answer(&self, rows: &[Arrival], parts: Parts) -> Result<Answer, AllocError> {
        let votes = votes_of(self.heap, rows, parts.default)?;
        let total = Numbers::of(votes.as_slice());
        Ok(Answer {
            sign: decide(self.heap, votes.as_slice(), parts)?,
            plus: by_distance(rows, Mark::Signed(Sign::Plus)),
            minus: by_distance(rows, Mark::Signed(Sign::Minus)),
            default: by_distance(rows, Mark::Default),
            plus_total: total.plus,
            minus_total: total.minus,
        })
    }
}

// How many rows of one mark lie at each distance.
fn by_distance(rows: &[Arrival], mark: Mark) -> [u64; DISTANCES] {
    let mut counts = [0u64; DISTANCES];
    for row in rows.iter().filter(|row| row.mark == mark) {
        if let Some(count) = counts.get_mut(row.distance) {
            *count = count.wrapping_add(1);
        }
    }
    counts
}

/// The least distance of a row of the sign.
pub fn least_of(rows: &[Arrival], sign: Sign) -> Option<usize> {
    rows.iter()
        .filter(|row| row.mark == Mark::Signed(sign))
        .map(|row| row.distance)
        .min()
}
