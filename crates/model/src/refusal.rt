//! What the book says no with.

ghost use Rattle.model.specs.Refusals.{refusal_number};

use numbered::Numbered;

/// Why a call is refused. Each has the number that a caller is told. A refused call changes nothing.
#[derive(Clone, Copy, PartialEq, Eq, Debug)]
pub enum Refusal {
    /// An account number is as large as the number of known accounts, or larger.
    UnknownAccount = 1,
    /// A chain leads from the member down to the group.
    Circle = 2,
    /// The membership stands already.
    MemberStands = 3,
    /// A chain would have more than 7 memberships.
    ChainTooLong = 4,
    /// A count of chains would pass 99,999.
    CountTooLarge = 5,
    /// The membership does not stand.
    NotAMember = 6,
    /// The right is above 7.
    NoSuchRight = 7,
    /// The item is above 255.
    NoSuchItem = 8,
    /// A grant stands for the account, the item and the right.
    GrantStands = 9,
    /// As many grants stand as there is room for.
    BookFull = 10,
    /// No grant stands for the account, the item and the right.
    NoSuchGrant = 11,
    /// The plan does not know the item.
    ItemUnknown = 12,
}

impl Numbered for Refusal {
    ghost number_of = { refusal_number };

    /// The number that a caller is told, 1 to 12.
    fn number(self) -> u32 {
        self as u32
    }
}
