//! What calls are served on.

use book::Book;
use plans::Equipment;

// A book, and the equipment table that questions may be put over.
#[derive(Drop)]
pub(crate) struct Served<'a> {
    pub(crate) book: Book<'a>,
    pub(crate) equipment: Equipment,
}
