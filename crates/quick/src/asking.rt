//! The rows of the quick question.

ghost use Rattle.std.specs.Prelude.{◌<◌};
ghost use Rattle.model.specs.Question.{listing};
ghost use Rattle.strategies.specs.Rows.{CountsOf};
ghost use Rattle.table.specs.Tables.{members_in};

use crate::arriving::arrive;
use crate::defaults::default_row;
use model::access::Access;
use plans::{Plan, item_counts};
use standing::Standing;
use strategies::rows::{Row, Rows};

/// How many marks of each kind reach the account over each distance, for the item and the right: the counts of the listing. Each
/// grant of the right is looked up once in the table of chain counts, and each account once for default marks.
pub fn quick_rows<P: Plan>(from: &Standing, plan: &P, access: Access) -> Rows
    requires { access.account < from.now.table.now.accounts }
    ensures { CountsOf result (listing from.now.table.now.accounts (record { members = members_in from.now.table.now; grants = from.now.grants.now }) (P.Plan.meaning plan.now) access.account access.item access.right) }
{
    let items = item_counts(plan, access.item);
    let arrived = arrive(from, &items, access);
    let default = default_row(from.table, &arrived.held, access.account as usize);
    Rows {
        plus: Row {
            counts: arrived.plus,
        },
        minus: Row {
            counts: arrived.minus,
        },
        default: Row { counts: default },
    }
}
