//! Joins again the memberships that counts show.

ghost use Rattle.std.specs.Prelude.{◌≡◌, ◌<◌, OnOk, OnErr};
ghost use Rattle.book.specs.Books.{accounts_of, shown};
ghost use Rattle.chains.specs.Chains.{Sound};
ghost use Rattle.chains.specs.Table.{shown_members};
ghost use Rattle.saved.specs.Saved.{OnlyMembersChange, before};

use book::Book;
use counts::reading::Counts;
use model::refusal::Refusal;

// Joins the members of one group. If one is refused, the counts are not those of a book.
fn rejoin_line(book: &mut Book, wanted: Counts, group: usize) -> Result<(), Refusal>
    requires accounts { accounts_of book.old ≡ wanted.accounts }
    requires group { group < wanted.accounts }
    requires begun { (shown book.old).members ≡ before (shown_members wanted.accounts wanted.numbers.now) group 0 }
    ensures done { OnOk result ((shown book.new).members ≡ before (shown_members wanted.entry.accounts wanted.entry.numbers.now) group wanted.entry.accounts) }
    ensures failed { OnErr result (Sound wanted.entry.accounts (shown_members wanted.entry.accounts wanted.entry.numbers.now) → ⊥) }
    ensures same { OnlyMembersChange book.old book.new }
{
    // A loop and not `try_for_each`: of a book that a closure changes, a proof knows nothing.
    for member in 0..wanted.accounts {
        if wanted.shows(group, member) {
            book.join(group as u32, member as u32)?;
        }
    }
    Ok(())
}

// Joins all that the counts show. If one is refused, the counts are not those of a book.
#[tactic(auto, using(crate::proofs::Before::before_line, chains::proofs::Shows::shown_within))]
pub(crate) fn rejoin(book: &mut Book, wanted: Counts) -> Result<(), Refusal>
    requires accounts { accounts_of book.old ≡ wanted.accounts }
    requires none { (shown book.old).members ≡ before (shown_members wanted.accounts wanted.numbers.now) 0 0 }
    ensures done { OnOk result ((shown book.new).members ≡ before (shown_members wanted.entry.accounts wanted.entry.numbers.now) wanted.entry.accounts 0) }
    ensures failed { OnErr result (Sound wanted.entry.accounts (shown_members wanted.entry.accounts wanted.entry.numbers.now) → ⊥) }
    ensures same { OnlyMembersChange book.old book.new }
{
    // A loop and not `try_for_each`: of a book that a closure changes, a proof knows nothing.
    for group in 0..wanted.accounts {
        rejoin_line(book, wanted, group)?;
    }
    Ok(())
}
