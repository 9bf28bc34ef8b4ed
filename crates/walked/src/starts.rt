//! What each account has before the walk.

use chains::MOST_ACCOUNTS;
use strategies::rows::Rows;

/// The marks that each account starts with, and whether it holds a grant that counts.
// Two arrays and not one of pairs: the walk takes the rows alone.
#[derive(Clone, Copy)]
pub struct Starts {
    pub rows: [Rows; MOST_ACCOUNTS],
    pub held: [bool; MOST_ACCOUNTS],
}
