//! What a grant is for.

ghost use Rattle.model.specs.Model.{out_of_range};
ghost use Rattle.model.specs.Refusals.{checks};
ghost use Rattle.std.specs.Prelude.{◌≡◌, ◌<◌, ◌≤◌, OnOk};

use crate::refusal::Refusal;

/// An account, an item and a right: what a grant is for, and what a question asks about.
#[derive(Clone, Copy, PartialEq, Eq, Debug)]
pub struct Access {
    pub account: u32,
    pub item: u32,
    pub right: u32,
}

impl Access {
    /// Checks the ranges, where so many accounts are known. Refused with 1 if the account is unknown, 7 if the right is above 7,
    /// 8 if the item is above 255; the first of these in this order.
    pub fn check(self, accounts: usize) -> Result<(), Refusal>
        ensures answer { result ≡ checks (out_of_range accounts self.account self.item self.right) }
        ensures ranges { OnOk result ((self.account < accounts) × (self.right ≤ 7) × (self.item ≤ 255)) }
    {
        if self.account as usize >= accounts {
            return Err(Refusal::UnknownAccount);
        }
        if self.right > 7 {
            return Err(Refusal::NoSuchRight);
        }
        if self.item > 255 {
            return Err(Refusal::NoSuchItem);
        }
        Ok(())
    }
}
