//! What stands while an access list is run.

ghost use Rattle.std.specs.Prelude.{◌≡◌};
ghost use Rattle.book.specs.Books.{accounts_of, capacity_in};

use book::Book;
use plans::Equipment;
use strategies::strategy::Strategy;

/// A book of 32 accounts with room for 512 grants, the equipment table, and the strategy of the questions that follow.
#[derive(Drop)]
pub(crate) struct Session<'a> {
    pub(crate) book: Book<'a>,
    pub(crate) equipment: Equipment,
    pub(crate) strategy: Strategy,
    ghost accounts: { accounts_of book ≡ 32 },
    ghost capacity: { capacity_in book ≡ 512 },
}
