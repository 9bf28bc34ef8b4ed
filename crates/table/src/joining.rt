//! The tests before a membership is made, and making and ending it in place.

ghost use Rattle.std.specs.Prelude.{◌≡◌, ◌<◌, true, false};
ghost use Rattle.chains.specs.Chains.{add, strike};
ghost use Rattle.chains.specs.Tests.{leads, too_long, too_many};
ghost use Rattle.table.specs.Tables.{behind, members_in};

use crate::tables::Table;
use counts::changing::{Add, Strike, change_all};

impl<'a> Table<'a> {
    /// Would a chain be longer than 7 if `c` became a member of `p`?
    pub fn too_long(&self, p: usize, c: usize) -> bool
        requires group { p < self.now.accounts }
        requires member { c < self.now.accounts }
        requires free { leads self.now.accounts (members_in self.now) c p ≡ false }
        ensures { result ≡ too_long self.now.accounts (add (members_in self.now) p c) }
    {
        self.view().is_too_long(p, c)
    }

    /// Would a count pass 99,999 if `c` became a member of `p`?
    pub fn too_many(&self, p: usize, c: usize) -> bool
        requires group { p < self.now.accounts }
        requires member { c < self.now.accounts }
        requires free { leads self.now.accounts (members_in self.now) c p ≡ false }
        requires new { members_in self.now p c ≡ false }
        ensures { result ≡ too_many self.now.accounts (add (members_in self.now) p c) }
    {
        self.view().passes(p, c)
    }

    /// Makes `c` a member of `p`, where no test speaks against it.
    pub fn add(&mut self, p: usize, c: usize)
        requires group { p < self.old.accounts }
        requires member { c < self.old.accounts }
        requires free { leads self.old.accounts (members_in self.old) c p ≡ false }
        requires new { members_in self.old p c ≡ false }
        requires short { too_long self.old.accounts (add (members_in self.old) p c) ≡ false }
        requires few { too_many self.old.accounts (add (members_in self.old) p c) ≡ false }
        ensures same { self.new.accounts ≡ self.old.accounts }
        ensures after { members_in self.new ≡ add (members_in self.old) p c }
        ensures memory { behind self.new ≡ behind self.old }
    {
        let n = self.accounts;
        change_all::<Add>(self.counts, n, p, c);
    }

    /// Ends the membership of `c` in `p`, which stands.
    pub fn strike(&mut self, p: usize, c: usize)
        requires group { p < self.old.accounts }
        requires member { c < self.old.accounts }
        requires stands { members_in self.old p c ≡ true }
        ensures same { self.new.accounts ≡ self.old.accounts }
        ensures after { members_in self.new ≡ strike (members_in self.old) p c }
        ensures memory { behind self.new ≡ behind self.old }
    {
        let n = self.accounts;
        change_all::<Strike>(self.counts, n, p, c);
    }
}
