//! A book as memory has it.

ghost use Rattle.std.specs.Prelude.{◌≡◌, OnOk, OnErr};
ghost use Rattle.book.specs.Books.{accounts_of, capacity_in, shown};
ghost use Rattle.chains.specs.Table.{Holds};
ghost use Rattle.model.specs.Model.{just_made};
ghost use Rattle.saved.specs.Saved.{LeftByABook, said_by};

use crate::refusing::NotLeftByABook;
use crate::regranting::regrant;
use crate::rejoining::rejoin;
use book::Book;
use chains::LENGTHS;
use counts::reading::Counts;
use model::grant::Grant;

/// Brings a just made book to what the counts and the grants say, unless no book of as many accounts and as much room can have left them.
pub fn restore(book: &mut Book, counts: &[u32], grants: &[Grant]) -> Result<(), NotLeftByABook>
    requires made { shown book.old ≡ just_made }
    requires holds { Holds (accounts_of book.old) counts.now }
    ensures done { OnOk result (shown book.new ≡ said_by (accounts_of book.old) counts.now grants.now) }
    ensures left { OnOk result (LeftByABook (accounts_of book.old) (capacity_in book.old) counts.now grants.now) }
    ensures failed { OnErr result (LeftByABook (accounts_of book.old) (capacity_in book.old) counts.now grants.now → ⊥) }
    ensures same { (accounts_of book.new ≡ accounts_of book.old) × (capacity_in book.new ≡ capacity_in book.old) }
{
    let accounts = book.accounts();
    rejoin(
        book,
        Counts {
            numbers: counts,
            accounts,
        },
    )?;
    let size = accounts * accounts * LENGTHS;
    if counts[..size] != book.counts()[..size] {
        return Err(NotLeftByABook);
    }
    regrant(book, grants)?;
    Ok(())
}
