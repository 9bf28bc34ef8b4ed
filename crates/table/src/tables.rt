//! The table over lent memory: making it and reading it.

ghost use Rattle.std.specs.Prelude.{◌≡◌, ℕ, ◌<◌, true, false, ◌↔◌, length, take, drop};
ghost use Rattle.chains.specs.Chains.{Chain, count, no_members};
ghost use Rattle.chains.specs.Table.{Holds, row_of, shown_members, size, table_of};
ghost use Rattle.chains.specs.Tests.{groupless, leads, too_long, too_many};

use chains::LENGTHS;
use counts::making::{clear, largest};
use counts::reading::Counts;

/// The chain counts of `accounts` accounts, in memory that the caller lends.
///
/// The count of the chains of length k from a down to s stands at place (a * accounts + s) * 8 + k. Every table there is is sound:
/// the counts fit and are those of the memberships that the table shows, no chain is longer than 7, and no count passes 99,999.
#[derive(Drop)]
pub struct Table<'a> {
    pub(crate) counts: &'a mut [u32],
    pub(crate) accounts: usize,
    ghost holds: { Holds accounts counts.now },
    ghost laid: { take (size accounts) counts.now ≡ table_of accounts (shown_members accounts counts.now) },
    ghost short: { too_long accounts (shown_members accounts counts.now) ≡ false },
    ghost few: { too_many accounts (shown_members accounts counts.now) ≡ false },
}

impl<'a> Table<'a> {
    ghost use Rattle.table.specs.Tables.{Largest, SoundTable, behind, members_in};

    /// The table of as many accounts as there is room for, 64 at most, without memberships. Counts behind it are left
    /// as they are.
    pub fn make(counts: &'a mut [u32]) -> Table<'a>
        ensures accounts { Largest (length counts.old) result.accounts }
        ensures sound { SoundTable result }
        ensures after { members_in result ≡ no_members }
        ensures memory { behind result ≡ drop (size result.accounts) counts.old }
    {
        let accounts = largest(counts.len());
        clear(counts, accounts);
        Table { counts, accounts }
    }

    /// How many accounts there are.
    pub fn accounts(&self) -> usize
        ensures { result ≡ self.now.accounts }
    {
        self.accounts
    }

    /// The lent counts, those behind the table too.
    pub fn counts(&self) -> &[u32]
        ensures { result.now ≡ self.now.counts.now }
    {
        self.counts
    }

    /// The chain counts of the table, to be read.
    pub fn view(&self) -> Counts
        ensures numbers { result.numbers.now ≡ self.now.counts.now }
        ensures accounts { result.accounts ≡ self.now.accounts }
    {
        Counts {
            numbers: self.counts,
            accounts: self.accounts,
        }
    }

    /// The number of chains of length `k` from `a` down to `s`.
    pub fn count(&self, a: usize, s: usize, k: usize) -> u32
        requires top { a < self.now.accounts }
        requires end { s < self.now.accounts }
        requires length { k < 8 }
        ensures { result ≡ count self.now.accounts (members_in self.now) a s k }
    {
        self.view().count(a, s, k)
    }

    /// The numbers of chains from `a` down to `s`, by length.
    pub fn row(&self, a: usize, s: usize) -> [u32; LENGTHS]
        requires top { a < self.now.accounts }
        requires end { s < self.now.accounts }
        ensures { result ≡ row_of self.now.accounts (members_in self.now) a s }
    {
        *self.view().row(a, s)
    }

    /// Is `member` a member of `group`?
    pub fn stands(&self, group: usize, member: usize) -> bool
        requires group { group < self.now.accounts }
        requires member { member < self.now.accounts }
        ensures { result ≡ members_in self.now group member }
    {
        self.view().shows(group, member)
    }

    /// Is the account a member of none?
    pub fn groupless(&self, a: usize) -> bool
        requires account { a < self.now.accounts }
        ensures { result ≡ groupless self.now.accounts (members_in self.now) a }
    {
        !(0..self.accounts).any(|group| self.stands(group, a))
    }

    /// Does a chain, of whatever length, lead from `a` down to `s`?
    pub fn leads(&self, a: usize, s: usize) -> bool
        requires top { a < self.now.accounts }
        requires end { s < self.now.accounts }
        ensures answer { result ≡ leads self.now.accounts (members_in self.now) a s }
        ensures chain { (result ≡ true) ↔ ((k : ℕ) × Chain (members_in self.now) a k s) }
    {
        self.view().leads_by(a, s, 0)
    }
}
