//! Calls that change what stands. A refused call changes nothing.

ghost use Rattle.book.specs.Books.{accounts_of, capacity_in, counts_in, records_in, shown};
ghost use Rattle.chains.specs.Table.{size, table_of};
ghost use Rattle.model.specs.Model.{give_outcome, given, join_outcome, joined, leave_outcome, left, withdraw_outcome, withdrawn};
ghost use Rattle.model.specs.Refusals.{UnlessAccepted, where_accepted};
ghost use Rattle.model.specs.RunLaws.{CircleExactly};
ghost use Rattle.records.specs.Records.{closed, written};
ghost use Rattle.std.specs.Prelude.{◌≡◌, ◌++◌, drop};

use crate::books::Book;
use joins::{join_in, leave_in};
use model::access::Access;
use model::grant::Grant;
use model::refusal::Refusal;

impl Book<'_> {
    /// Makes `member` a member of `group`.
    ///
    /// Refused with 1 if an account is unknown, 2 if a chain leads from the member down to the group, 3 if the membership
    /// stands, 4 if a chain would be longer than 7, 5 if a count would pass 99,999; the first of these in this order.
    #[tactic(auto, unfolding(model::specs::Model::join_outcome), using(crate::proofs::Changed::shown_joined))]
    pub fn join(&mut self, group: u32, member: u32) -> Result<(), Refusal>
        ensures answer { result ≡ join_outcome (accounts_of self.old) (shown self.old) group member }
        ensures after { shown self.new ≡ joined (accounts_of self.old) (shown self.old) group member }
        ensures circle { CircleExactly (accounts_of self.old) (shown self.old).members group member result }
        ensures memory { counts_in self.new ≡ table_of (accounts_of self.old) (joined (accounts_of self.old) (shown self.old) group member).members ++ drop (size (accounts_of self.old)) (counts_in self.old) }
        ensures same { (self.new.grants ≡ self.old.grants) × (accounts_of self.new ≡ accounts_of self.old) }
        ensures behind { drop (size (accounts_of self.old)) (counts_in self.new) ≡ drop (size (accounts_of self.old)) (counts_in self.old) }
        ensures refused { UnlessAccepted result (self.new.table ≡ self.old.table) }
    {
        join_in(&mut self.table, group as usize, member as usize)
    }

    /// Ends the membership of `member` in `group`.
    ///
    /// Refused with 1 if an account is unknown, 6 if the membership does not stand.
    #[tactic(auto, unfolding(model::specs::Model::leave_outcome), using(crate::proofs::Changed::shown_left))]
    pub fn leave(&mut self, group: u32, member: u32) -> Result<(), Refusal>
        ensures answer { result ≡ leave_outcome (accounts_of self.old) (shown self.old) group member }
        ensures after { shown self.new ≡ left (accounts_of self.old) (shown self.old) group member }
        ensures memory { counts_in self.new ≡ table_of (accounts_of self.old) (left (accounts_of self.old) (shown self.old) group member).members ++ drop (size (accounts_of self.old)) (counts_in self.old) }
        ensures same { (self.new.grants ≡ self.old.grants) × (accounts_of self.new ≡ accounts_of self.old) }
        ensures behind { drop (size (accounts_of self.old)) (counts_in self.new) ≡ drop (size (accounts_of self.old)) (counts_in self.old) }
        ensures refused { UnlessAccepted result (self.new.table ≡ self.old.table) }
    {
        leave_in(&mut self.table, group as usize, member as usize)
    }

    /// Puts a grant behind the others, into the first free record.
    ///
    /// Refused with 1 if the account is unknown, 7 if the right is above 7, 8 if the item is above 255, 9 if a grant stands for
    /// the account, the item and the right, 10 if as many grants stand as may; the first of these in this order.
    #[tactic(auto, unfolding(model::specs::Model::give_outcome), using(crate::proofs::Changed::shown_given))]
    pub fn grant(&mut self, grant: Grant) -> Result<(), Refusal>
        ensures answer { result ≡ give_outcome (accounts_of self.old) (capacity_in self.old) (shown self.old) grant.account grant.item grant.right }
        ensures after { shown self.new ≡ given (accounts_of self.old) (capacity_in self.old) (shown self.old) grant }
        ensures memory { records_in self.new ≡ where_accepted result (written self.old.grants grant) (records_in self.old) }
        ensures same { (self.new.table ≡ self.old.table) × (capacity_in self.new ≡ capacity_in self.old) }
    {
        self.grants.give(grant)
    }

    /// Takes back the grant for the account, the item and the right. Those behind it move up by one record; the vacated last
    /// record keeps what lies there.
    ///
    /// Refused with 1 if the account is unknown, 7 if the right is above 7, 8 if the item is above 255, 11 if no such grant
    /// stands; the first of these in this order.
    #[tactic(auto, unfolding(model::specs::Model::withdraw_outcome), using(crate::proofs::Changed::shown_withdrawn))]
    pub fn withdraw(&mut self, access: Access) -> Result<(), Refusal>
        ensures answer { result ≡ withdraw_outcome (accounts_of self.old) (shown self.old) access.account access.item access.right }
        ensures after { shown self.new ≡ withdrawn (accounts_of self.old) (shown self.old) access.account access.item access.right }
        ensures memory { records_in self.new ≡ where_accepted result (closed self.old.grants access.account access.item access.right) (records_in self.old) }
        ensures same { (self.new.table ≡ self.old.table) × (capacity_in self.new ≡ capacity_in self.old) }
    {
        self.grants.withdraw(access)
    }
}
