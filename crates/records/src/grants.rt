//! The grants that stand: the first of a lent slice of records.

ghost use Rattle.std.specs.Prelude.{◌≡◌, ℕ, ◌≤◌, min, false, length, take};
ghost use Rattle.lists.specs.Lists.{some};
ghost use Rattle.model.specs.Grants.{misfit, repeated};

use model::access::Access;
use model::grant::Grant;
use model::refusal::Refusal;

/// No more grants than this stand, however many records are lent.
pub const MOST_GRANTS: usize = 512;

/// The grants that stand in a book of so many accounts: the first `standing` records.
///
/// No more stand than may, each is in range, and no two are for the same account, item and right.
#[derive(Drop)]
pub struct Grants<'a> {
    pub(crate) records: &'a mut [Grant],
    pub(crate) standing: usize,
    pub(crate) accounts: usize,
    ghost room: { standing ≤ min 512 (length records.now) },
    ghost fitting: { some (misfit accounts) (take standing records.now) ≡ false },
    ghost once: { repeated (take standing records.now) ≡ false },
}

impl<'a> Grants<'a> {
    ghost use Rattle.std.specs.Prelude.{◌-◌, ◌<◌, [], ◌∷◌, ◌++◌, drop};
    ghost use Rattle.model.specs.Grants.{is_for, others};
    ghost use Rattle.model.specs.Model.{give_checks, withdraw_checks};
    ghost use Rattle.model.specs.Refusals.{checks, where_accepted};
    ghost use Rattle.records.specs.Records.{KeptGrants, capacity_of, closed, standing_in, written};
    ghost use Rattle.std.specs.List.{position, remove};

    /// No grant stands, and so many accounts are known. The records are left as they are.
    #[tactic(auto, unfolding(model::specs::Grants::repeated))]
    pub fn none(records: &'a mut [Grant], accounts: usize) -> Grants<'a>
        ensures memory { result.records.now ≡ records.old }
        ensures none { result.standing ≡ 0 }
        ensures kept { (n : ℕ) → KeptGrants n result }
        ensures accounts { result.accounts ≡ accounts }
    {
        Grants {
            records,
            standing: 0,
            accounts,
        }
    }

    /// The grants that stand, in the order given.
    pub fn standing(&self) -> &[Grant]
        ensures { result.now ≡ standing_in self.now }
    {
        &self.records[..self.standing]
    }

    /// How many grants may stand: as many as there are records, 512 at most.
    pub fn capacity(&self) -> usize
        ensures { result ≡ capacity_of self.now }
    {
        self.records.len().min(MOST_GRANTS)
    }

    /// Puts a grant behind the others.
    pub fn give(&mut self, grant: Grant) -> Result<(), Refusal>
        ensures answer { result ≡ checks (give_checks self.old.accounts (capacity_of self.old) (standing_in self.old) grant.account grant.item grant.right) }
        ensures after { standing_in self.new ≡ where_accepted result (standing_in self.old ++ grant ∷ []) (standing_in self.old) }
        ensures memory { self.new.records.now ≡ where_accepted result (written self.old grant) self.old.records.now }
        ensures accounts { self.new.accounts ≡ self.old.accounts }
        ensures capacity { capacity_of self.new ≡ capacity_of self.old }
    {
        let access = grant.access();
        access.check(self.accounts)?;
        if self.has(access) {
            return Err(Refusal::GrantStands);
        }
        if self.standing >= self.capacity() {
            return Err(Refusal::BookFull);
        }
        self.push(grant);
        Ok(())
    }

    /// Takes back the grant for the account, the item and the right.
    #[tactic(auto, using(crate::proofs::Places::found_others, crate::proofs::Places::is_some_position))]
    pub fn withdraw(&mut self, access: Access) -> Result<(), Refusal>
        ensures answer { result ≡ checks (withdraw_checks self.old.accounts (standing_in self.old) access.account access.item access.right) }
        ensures after { standing_in self.new ≡ where_accepted result (others access.account access.item access.right (standing_in self.old)) (standing_in self.old) }
        ensures memory { self.new.records.now ≡ where_accepted result (closed self.old access.account access.item access.right) self.old.records.now }
        ensures accounts { self.new.accounts ≡ self.old.accounts }
        ensures capacity { capacity_of self.new ≡ capacity_of self.old }
    {
        access.check(self.accounts)?;
        let at = self.find(access).ok_or(Refusal::NoSuchGrant)?;
        self.remove(at);
        Ok(())
    }

    /// Does a grant for the account, the item and the right stand?
    #[tactic(auto, using(crate::proofs::Places::is_some_position))]
    fn has(&self, access: Access) -> bool
        ensures { result ≡ some (is_for access.account access.item access.right) (standing_in self.now) }
    {
        self.find(access).is_some()
    }

    /// The place of the standing grant for the account, the item and the right.
    fn find(&self, access: Access) -> Option<usize>
        ensures { result ≡ position (is_for access.account access.item access.right) (standing_in self.now) }
    {
        self.standing()
            .iter()
            .position(|grant| grant.is_for(access))
    }

    /// Writes a grant at the first free place.
    fn push(&mut self, grant: Grant)
        requires fits { misfit self.old.accounts grant ≡ false }
        requires new { some (is_for grant.account grant.item grant.right) (standing_in self.old) ≡ false }
        requires room { self.old.standing < capacity_of self.old }
        ensures after { standing_in self.new ≡ standing_in self.old ++ grant ∷ [] }
        ensures memory { self.new.records.now ≡ written self.old grant }
        ensures accounts { self.new.accounts ≡ self.old.accounts }
        ensures capacity { capacity_of self.new ≡ capacity_of self.old }
    {
        self.records[self.standing] = grant;
        self.standing += 1;
    }

    /// Takes the grant at place `at` out of the list. The last place keeps its record.
    #[tactic(auto, using(crate::proofs::Places::gap_front, crate::proofs::Places::gap_closed, crate::proofs::Places::repeated_remove, crate::proofs::Places::some_remove, crate::proofs::Places::without_last))]
    fn remove(&mut self, at: usize)
        requires at { at < self.old.standing }
        ensures after { standing_in self.new ≡ remove (standing_in self.old) at }
        ensures memory { self.new.records.now ≡ remove (standing_in self.old) at ++ drop (self.old.standing - 1) self.old.records.now }
        ensures accounts { self.new.accounts ≡ self.old.accounts }
        ensures capacity { capacity_of self.new ≡ capacity_of self.old }
    {
        let standing = self.standing;
        self.standing -= 1;
        self.records.copy_within(at + 1..standing, at);
    }
}
