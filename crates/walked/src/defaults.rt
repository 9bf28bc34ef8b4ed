//! Default marks.

ghost use Rattle.std.specs.Prelude.{◌≡◌, ◌<◌};
ghost use Rattle.table.specs.Tables.{members_in};
ghost use Rattle.walked.specs.Defaults.{Marked, gives_default, marked, one_mark};

use crate::starts::Starts;
use strategies::rows::{Row, Rows};
use table::Table;

// One mark at distance 0.
fn one_mark() -> Row
    ensures { result ≡ one_mark }
{
    let mut row = Row::none();
    row.add(0);
    row
}

// The rows with one default mark.
fn mark(rows: &Rows) -> Rows
    ensures { result ≡ marked rows.now }
{
    Rows {
        default: one_mark(),
        ..*rows
    }
}

// Does the account give default marks: does it hold no grant that counts, and is it a member of none?
fn is_unmarked(table: &Table, starts: &Starts, a: usize) -> bool
    requires { a < table.now.accounts }
    ensures { result ≡ gives_default table.now.accounts (members_in table.now) starts.now a }
{
    !starts.held[a] && table.groupless(a)
}

/// Gives a default mark, at distance 0, to each account that is a member of none and holds no grant that counts.
pub fn mark_defaults(table: &Table, starts: &mut Starts)
    ensures { Marked table.now.accounts (members_in table.now) starts.old starts.new }
{
    // A loop over numbers: a number is the account that the table is asked of.
    for a in 0..table.accounts() {
        if is_unmarked(table, starts, a) {
            let rows = starts.rows[a];
            starts.rows[a] = mark(&rows);
        }
    }
}
