//! Grants.

ghost use Rattle.model.specs.Grants.{is_for};
ghost use Rattle.std.specs.Prelude.{◌≡◌};

use crate::access::Access;
use strategies::marks::Sign;

/// A right on an item, given to an account or withheld from it.
#[derive(Clone, Copy, PartialEq, Eq, Debug)]
pub struct Grant {
    pub account: u32,
    pub item: u32,
    pub right: u32,
    pub sign: Sign,
}

/// What lies in a record that was never written.
pub const UNWRITTEN: Grant = Grant {
    account: 0,
    item: 0,
    right: 0,
    sign: Sign::Plus,
};

impl Grant {
    /// What the grant is for.
    pub fn access(&self) -> Access
        ensures { result ≡ record { account = self.now.account; item = self.now.item; right = self.now.right } }
    {
        Access {
            account: self.account,
            item: self.item,
            right: self.right,
        }
    }

    /// Is this the grant for the account, the item and the right, whatever its sign?
    pub fn is_for(&self, access: Access) -> bool
        ensures { result ≡ is_for access.account access.item access.right self.now }
    {
        self.access() == access
    }
}
