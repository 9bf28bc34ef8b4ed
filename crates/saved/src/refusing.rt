//! What `restore` says no with.

ghost use Rattle.std.specs.Prelude.{◌≡◌};

use model::refusal::Refusal;

/// No book of as many accounts and as much room can have left the counts and the grants.
#[derive(Clone, Copy, PartialEq, Eq, Debug)]
pub struct NotLeftByABook;

impl From<Refusal> for NotLeftByABook {
    // A book that left them would have refused none of its calls.
    fn from(_refusal: Refusal) -> NotLeftByABook {
        NotLeftByABook
    }
}
