//! The book over two pieces of the caller's memory.

ghost use Rattle.std.specs.Prelude.{◌≡◌};

use records::Grants;
use table::Table;

/// Memberships, by their chain counts, and grants. Both lie in memory that the caller lends.
///
/// Every book there is is one that calls can leave: every table is sound and all grants are kept, by their types, and the grants are
/// those of a book of as many accounts as the table knows.
#[derive(Drop)]
pub struct Book<'a> {
    pub(crate) table: Table<'a>,
    pub(crate) grants: Grants<'a>,
    ghost same: { grants.accounts ≡ table.accounts },
}
