//! What the lister says no with. It shares no check of the book, and its numbers are its own, so that both can be compared.

use std::alloc::{AllocError, AllocFailed};

/// Why a call or a question is refused. Each has the number that a caller is told.
#[derive(Clone, Copy, PartialEq, Eq, Debug)]
pub enum Refused {
    /// An account number is as large as the number of known accounts, or larger.
    UnknownAccount = 1,
    /// A chain leads from the member down to the group.
    Circle = 2,
    /// The membership stands already.
    MemberStands = 3,
    /// A chain would have more than 7 memberships.
    ChainTooLong = 4,
    /// A count of chains would pass 99,999.
    CountTooLarge = 5,
    /// The membership does not stand.
    NotAMember = 6,
    /// The right is above 7.
    NoSuchRight = 7,
    /// The item is above 255.
    NoSuchItem = 8,
    /// A grant stands for the account, the item and the right.
    GrantStands = 9,
    /// As many grants stand as there is room for.
    ListFull = 10,
    /// No grant stands for the account, the item and the right.
    NoSuchGrant = 11,
    /// The plan does not know the item.
    ItemUnknown = 12,
}

/// What ends a change before it is made: a refusal, or that there is no memory for the lists.
#[derive(Clone, Copy, PartialEq, Eq, Debug)]
pub enum Stopped {
    Refused(Refused),
    NoMemory(AllocError),
}

impl From<Refused> for Stopped {
    // A refusal stops the change.
    fn from(refused: Refused) -> Stopped {
        Stopped::Refused(refused)
    }
}

impl From<AllocError> for Stopped {
    // So does a lack of memory,
    fn from(error: AllocError) -> Stopped {
        Stopped::NoMemory(error)
    }
}

impl<T: Drop> From<AllocFailed<T>> for Stopped {
    // also where it is known what found no room.
    fn from(failed: AllocFailed<T>) -> Stopped {
        Stopped::NoMemory(AllocError::from(failed))
    }
}
