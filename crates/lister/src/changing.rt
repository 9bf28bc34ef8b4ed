//! What the lister makes of a call that changes what stands.

use crate::lister::{Lister, any_too_large, any_too_long};
use crate::refused::{Refused, Stopped};
use model::access::Access;
use model::grant::Grant;
use std::alloc::AllocError;

impl Lister {
    /// Makes `member` a member of `group`.
    pub fn join(&mut self, group: u32, member: u32) -> Result<(), Stopped> {
        self.both_known(group, member)?;
        if self.leads(member, group)? {
            return Err(Refused::Circle.into());
        }
        if self.stands(group, member) {
            return Err(Refused::MemberStands.into());
        }
        self.add(group, member)?;
        let grown = self.small_enough();
        if grown.is_err() {
            self.strike(group, member);
        }
        grown
    }

    /// Ends the membership of `member` in `group`.
    pub fn leave(&mut self, group: u32, member: u32) -> Result<(), Refused> {
        self.both_known(group, member)?;
        if !self.stands(group, member) {
            return Err(Refused::NotAMember);
        }
        self.strike(group, member);
        Ok(())
    }

    // Refuses an account that is not known.
    fn both_known(&self, group: u32, member: u32) -> Result<(), Refused> {
        if group < self.accounts && member < self.accounts {
            Ok(())
        } else {
            Err(Refused::UnknownAccount)
        }
    }

    // Puts the member behind the others of the group.
    fn add(&mut self, group: u32, member: u32) -> Result<(), AllocError> {
        match self.members.get_mut(group as usize) {
            Some(members) => Ok(members.push(member)?),
            None => Ok(()),
        }
    }

    // Takes the member out of the group's list, where it is once.
    fn strike(&mut self, group: u32, member: u32) {
        if let Some(members) = self.members.get_mut(group as usize) {
            members.retain(|other| *other != member);
        }
    }

    // Refuses a chain that is too long, or else a count that is too large.
    fn small_enough(&self) -> Result<(), Stopped> {
        let mut sizes = Ok(());
        for account in 0..self.accounts {
            let counts = self.counted_from(account)?;
            if any_too_long(counts.as_slice()) {
                return Err(Refused::ChainTooLong.into());
            }
            if any_too_large(counts.as_slice()) {
                sizes = Err(Refused::CountTooLarge.into());
            }
        }
        sizes
    }

    // Refuses what is out of range of any account, item and right.
    fn in_range(&self, access: Access) -> Result<(), Refused> {
        if access.account >= self.accounts {
            Err(Refused::UnknownAccount)
        } else if access.right > 7 {
            Err(Refused::NoSuchRight)
        } else if access.item > 255 {
            Err(Refused::NoSuchItem)
        } else {
            Ok(())
        }
    }

    /// Refuses what no question may ask, where the plan knows the item or does not.
    pub fn may_be_asked(&self, access: Access, known: bool) -> Result<(), Refused> {
        self.in_range(access)?;
        if known {
            Ok(())
        } else {
            Err(Refused::ItemUnknown)
        }
    }

    // Does a grant stand for the account, the item and the right?
    fn granted(&self, access: Access) -> bool {
        self.grants.iter().any(|grant| is_given(grant, access))
    }

    /// Puts a grant behind the others.
    pub fn give(&mut self, grant: Grant) -> Result<(), Stopped> {
        let access = Access {
            account: grant.account,
            item: grant.item,
            right: grant.right,
        };
        self.in_range(access)?;
        if self.granted(access) {
            return Err(Refused::GrantStands.into());
        }
        let place = self.grants.len();
        if place >= self.capacity {
            return Err(Refused::ListFull.into());
        }
        self.grants.push(grant)?;
        if let Some(record) = self.records.get_mut(place) {
            *record = grant;
        }
        Ok(())
    }

    /// Takes a grant back. Those behind it move up, and the last record keeps what lies there.
    pub fn withdraw(&mut self, access: Access) -> Result<(), Refused> {
        self.in_range(access)?;
        if !self.granted(access) {
            return Err(Refused::NoSuchGrant);
        }
        self.grants.retain(|grant| !is_given(grant, access));
        self.write_records();
        Ok(())
    }

    // Writes the grants that stand into the first records.
    fn write_records(&mut self) {
        for (record, grant) in self.records.iter_mut().zip(self.grants.iter()) {
            *record = *grant;
        }
    }
}

// Is the grant for the account, the item and the right? Compared here by three numbers: the comparison of `model` is the book's.
fn is_given(grant: &Grant, access: Access) -> bool {
    grant.account == access.account && grant.item == access.item && grant.right == access.right
}
