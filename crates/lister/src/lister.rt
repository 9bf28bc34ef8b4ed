//! The plain lister: who is a member of whom and which grants stand, kept as lists.

ghost use Rattle.std.specs.Prelude.{IfOk};
ghost use Rattle.lister.specs.Walks.{BeginsAt};

use crate::every_chain::{Chain, LISTED, chains_by_place};
use model::grant::Grant;
use std::alloc::{AllocError, Global};

// Own numbers, to be compared with the book's.

/// There are at most this many accounts.
const MOST_ACCOUNTS: usize = 64;

/// There are at most this many grants.
const MOST_GRANTS: usize = 512;

/// The largest count of chains that may be.
const LARGEST_COUNT: u32 = 99_999;

/// How many chains of each length, 0 to 8, lead to an account.
pub type Counts = [u32; LISTED];

/// What stands by the calls so far.
#[derive(Drop)]
pub struct Lister {
    pub heap: Global,
    pub accounts: u32,
    pub capacity: usize,
    // The members of each account, in the order joined.
    pub members: Vec<Vec<u32>>,
    // The grants that stand, in the order given.
    pub grants: Vec<Grant>,
    // What the lent records should hold, all of them.
    pub records: Vec<Grant>,
}

impl Lister {
    /// Nothing stands. `lent` counts and the records are lent.
    pub fn new(heap: Global, lent: usize, records: &[Grant]) -> Result<Lister, AllocError> {
        let accounts = accounts_for(lent);
        let members = (0..accounts).map(|_account| Vec::new(heap)).collect(heap)?;
        Ok(Lister {
            heap,
            accounts,
            capacity: records.len().min(MOST_GRANTS),
            members,
            grants: Vec::new(heap),
            records: Vec::from_slice(heap, records)?,
        })
    }

    /// Every chain from the account, that of length 0 first.
    pub fn chains_from(&self, account: u32) -> Result<Vec<Chain>, AllocError>
        ensures first { IfOk result (λ found. BeginsAt account found.items) }
    {
        let onward = |at: u32, place: usize| self.members_of(at).get(place).copied();
        chains_by_place(self.heap, onward, account)
    }

    // The members of the group, in the order joined; none of an account that is not known.
    fn members_of(&self, group: u32) -> &[u32] {
        match self.members.get(group as usize) {
            Some(members) => members.as_slice(),
            None => &[],
        }
    }

    /// Is it a member of the group?
    pub fn stands(&self, group: u32, member: u32) -> bool {
        self.members_of(group).contains(&member)
    }

    /// Does a chain lead from one account down to the other?
    pub fn leads(&self, from: u32, to: u32) -> Result<bool, AllocError> {
        Ok(self.chains_from(from)?.iter().any(|chain| chain.end == to))
    }

    /// How many chains lead from the account to each.
    pub fn counted_from(&self, account: u32) -> Result<Vec<Counts>, AllocError> {
        let mut counts = Vec::from_elem(self.heap, [0u32; LISTED], MOST_ACCOUNTS)?;
        for chain in self.chains_from(account)?.iter() {
            if let Some(lengths) = counts.get_mut(chain.end as usize) {
                if let Some(count) = lengths.get_mut(chain.length) {
                    *count = count.wrapping_add(1);
                }
            }
        }
        Ok(counts)
    }
}

// The largest number of accounts, up to 64, for which there are counts enough.
fn accounts_for(lent: usize) -> u32 {
    (1..MOST_ACCOUNTS as u32 + 1)
        .rfind(|accounts| accounts.wrapping_mul(*accounts).wrapping_mul(8) as usize <= lent)
        .unwrap_or(0)
}

/// Has one of the accounts a chain of length 8?
pub fn any_too_long(counts: &[Counts]) -> bool {
    counts.iter().any(|lengths| lengths[LISTED - 1] > 0)
}

/// Does one of the counts pass the largest?
pub fn any_too_large(counts: &[Counts]) -> bool {
    counts.iter().any(|lengths| lengths.iter().any(|count| *count > LARGEST_COUNT))
}
