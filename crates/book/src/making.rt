//! Making a book, and reading what it holds.

ghost use Rattle.book.specs.Books.{accounts_of, capacity_in, counts_in, records_in, shown};
ghost use Rattle.chains.specs.Chains.{no_members};
ghost use Rattle.chains.specs.Table.{size, table_of};
ghost use Rattle.model.specs.Model.{just_made};
ghost use Rattle.table.specs.Tables.{Largest};
ghost use Rattle.std.specs.Prelude.{◌≡◌, ◌++◌, length, drop};

use crate::books::Book;
use model::grant::Grant;
use records::Grants;
use table::Table;

impl<'a> Book<'a> {
    /// A book without memberships and grants, over the two pieces of memory. It knows as many accounts as the counts have room
    /// for, eight counts for each pair, and 64 at most. The counts behind the table and all records are left as they are.
    pub fn make(counts: &'a mut [u32], records: &'a mut [Grant]) -> Book<'a>
        ensures accounts { Largest (length counts.old) (accounts_of result) }
        ensures after { shown result ≡ just_made }
        ensures counts { counts_in result ≡ table_of (accounts_of result) no_members ++ drop (size (accounts_of result)) counts.old }
        ensures records { records_in result ≡ records.old }
    {
        let table = Table::make(counts);
        let grants = Grants::none(records, table.accounts());
        Book { table, grants }
    }

    /// How many accounts the book knows: those with a lower number.
    pub fn accounts(&self) -> usize
        ensures { result ≡ accounts_of self.now }
    {
        self.table.accounts()
    }

    /// The lent counts: those of the table, and those behind it.
    pub fn counts(&self) -> &[u32]
        ensures { result.now ≡ counts_in self.now }
    {
        self.table.counts()
    }

    /// How many grants may stand: as many as there are records, 512 at most.
    pub fn capacity(&self) -> usize
        ensures { result ≡ capacity_in self.now }
    {
        self.grants.capacity()
    }

    /// The grants that stand, in the order given.
    pub fn grants(&self) -> &[Grant]
        ensures { result.now ≡ (shown self.now).grants }
    {
        self.grants.standing()
    }
}
