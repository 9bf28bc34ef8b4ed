//! What one line of an access list says.

use model::access::Access;
use model::grant::Grant;
use strategies::strategy::Strategy;

// Not a Call: a line that asks names no strategy, and two kinds of line make no call of the book.
/// One line of an access list, taken apart. Each is one call; the numbers have up to five digits.
#[derive(Clone, Copy, PartialEq, Eq, Debug)]
pub enum Line {
    /// `J`: make `member` a member of `group`.
    Join {
        group: u32,
        member: u32,
    },
    /// `L`: end the membership of `member` in `group`.
    Leave {
        group: u32,
        member: u32,
    },
    /// `G`: give a grant.
    Give {
        grant: Grant,
    },
    /// `W`: take back the grant for the access.
    Withdraw {
        access: Access,
    },
    /// `Q`: may the account use the right on the item?
    Ask {
        access: Access,
    },
    /// `E`: put the item behind the others of the equipment table, in no, one or two containers.
    Equip {
        item: u32,
        first: Option<u32>,
        second: Option<u32>,
    },
    /// `S`: the strategy of the questions that follow.
    Choose(Strategy),
}
