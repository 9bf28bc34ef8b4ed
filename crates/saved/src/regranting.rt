//! Gives grants again.

ghost use Rattle.std.specs.Prelude.{◌≡◌, ◌≤◌, false, [], ◌∷◌, ◌++◌, length, OnOk, OnErr, ◌≢◌};
ghost use Rattle.book.specs.Books.{accounts_of, capacity_in, shown};
ghost use Rattle.lists.specs.Lists.{some};
ghost use Rattle.model.specs.Grants.{misfit, repeated};
ghost use Rattle.model.specs.Model.{give_outcome};

use book::Book;
use model::grant::Grant;
use model::refusal::Refusal;

// Gives the grant.
fn give_again(book: &mut Book, grant: Grant) -> Result<(), Refusal>
    ensures accepted { OnOk result ((shown book.new).grants ≡ (shown book.old).grants ++ (grant ∷ [])) }
    ensures refused { OnErr result (give_outcome (accounts_of book.old) (capacity_in book.old) (shown book.old) grant.account grant.item grant.right ≢ Ok tt) }
    ensures same { (book.new.table ≡ book.old.table) × (capacity_in book.new ≡ capacity_in book.old) }
{
    book.grant(grant)
}

// Gives the grants in their order. If one is refused, no book holds them.
pub(crate) fn regrant(book: &mut Book, grants: &[Grant]) -> Result<(), Refusal>
    requires { (shown book.old).grants ≡ [] }
    ensures done { OnOk result ((shown book.new).grants ≡ grants.now) }
    ensures failed { OnErr result (length grants.now ≤ capacity_in book.old → some (misfit (accounts_of book.old)) grants.now ≡ false → repeated grants.now ≢ false) }
    ensures same { (book.new.table ≡ book.old.table) × (capacity_in book.new ≡ capacity_in book.old) }
{
    for grant in grants {
        give_again(book, *grant)?;
    }
    Ok(())
}
