//! Calls on a book, and what they give.

use crate::access::Access;
use crate::answer::Answer;
use crate::grant::Grant;
use crate::refusal::Refusal;
use strategies::marks::Sign;
use strategies::strategy::Strategy;

/// One call on the book.
#[derive(Clone, Copy, PartialEq, Eq, Debug)]
pub enum Call {
    /// Make `member` a member of `group`.
    Join { group: u32, member: u32 },
    /// End the membership of `member` in `group`.
    Leave { group: u32, member: u32 },
    /// Put a grant behind the others.
    Give { grant: Grant },
    /// Take back the grant for the account, the item and the right.
    Withdraw { access: Access },
    /// May the account use the right on the item? Read off the chain counts.
    Quick { access: Access, strategy: Strategy },
    /// The same question, by walking down the memberships.
    Walked { access: Access, strategy: Strategy },
    /// The least distance of an arrival of the sign.
    Least { access: Access, sign: Sign },
}

/// What a call gave: nothing, an answer or a distance, each unless it was refused.
#[derive(Clone, Copy, PartialEq, Eq, Debug)]
pub enum Reply {
    Done(Result<(), Refusal>),
    Answered(Result<Answer, Refusal>),
    Distance(Result<Option<u8>, Refusal>),
}
