//! What a question reads of a book: its table of chain counts, and the grants that stand.
#![tactic(auto)]

ghost use Rattle.std.specs.Prelude.{◌≡◌, ◌≤◌, false, length};
ghost use Rattle.lists.specs.Lists.{some};
ghost use Rattle.model.specs.Grants.{misfit};

use model::grant::Grant;
use table::Table;

/// A table, and the grants that stand: at most 512, and each in range for the accounts of the table.
#[derive(Clone, Copy)]
pub struct Standing<'a> {
    pub table: &'a Table<'a>,
    pub grants: &'a [Grant],
    ghost room: { length grants.now ≤ 512 },
    ghost fitting: { some (misfit table.now.accounts) grants.now ≡ false },
}
