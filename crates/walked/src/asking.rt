//! The walked question and the least distance.

ghost use Rattle.std.specs.Prelude.{◌≡◌, ◌<◌, map};
ghost use Rattle.lists.specs.Lists.{keep};
ghost use Rattle.model.specs.Counted.{of_grants};
ghost use Rattle.model.specs.Question.{listing, nearest_of};
ghost use Rattle.strategies.specs.Rows.{CountsOf, same_mark};
ghost use Rattle.strategies.specs.declared.marks.Mark.TheVariants.{Signed};
ghost use Rattle.table.specs.Tables.{members_in};
ghost use Rattle.walked.specs.Asked.{RowsBy, standing};
ghost use Rattle.walked.specs.Distances.{FirstIfAny};
ghost use Rattle.walked.specs.Starts.{lengths_in};

use crate::defaults::mark_defaults;
use crate::distances::nearest_starts;
use crate::starting::grants_start;
use model::access::Access;
use plans::{ItemCounts, Plan, item_counts};
use standing::Standing;
use strategies::marks::Sign;
use strategies::rows::Rows;
use walk::meaning::{least_distance as nearest_arrival, rows_of_arrivals};

// The marks that arrive at the account, from the counts of item chains.
fn rows_from(from: &Standing, above: &ItemCounts, access: Access) -> Rows
    requires { access.account < from.now.table.now.accounts }
    ensures { RowsBy from.now.table.now.accounts (members_in from.now.table.now) from.now.grants.now (lengths_in above.now.counts) access.account access.right result }
{
    let mut starts = grants_start(from.grants, above, access.right);
    mark_defaults(from.table, &mut starts);
    rows_of_arrivals(from.table.view(), &starts.rows, access.account as usize)
}

// The least distance at which the sign arrives at the account, from the counts of item chains.
fn nearest_from(from: &Standing, above: &ItemCounts, access: Access, sign: Sign) -> Option<u8>
    requires { access.account < from.now.table.now.accounts }
    ensures { FirstIfAny (of_grants from.now.table.now.accounts (members_in from.now.table.now) from.now.grants.now (lengths_in above.now.counts) access.account access.right sign) result }
{
    let starts = nearest_starts(from.grants, above, access.right, sign);
    nearest_arrival(from.table.view(), &starts, access.account as usize)
}

/// How many marks of each kind arrive at the account on the item for the right, at each distance: the counts of all arrivals
/// and default marks that are to be listed.
///
/// Goes down the memberships, from each account that holds a grant of the right on the item or above it, and from each that
/// gives default marks. Of the table it reads the memberships alone. Alters nothing, and refuses nothing: the calls above check the
/// account, the item and the right.
pub fn walked_rows<P: Plan>(from: &Standing, plan: &P, access: Access) -> Rows
    requires { access.account < from.now.table.now.accounts }
    ensures { CountsOf result (listing from.now.table.now.accounts (standing from.now.table.now from.now.grants.now) (P.Plan.meaning plan.now) access.account access.item access.right) }
{
    let above = item_counts(plan, access.item);
    rows_from(from, &above, access)
}

/// The least distance of an arrival of the sign at the account on the item for the right, or none if the sign does not arrive.
/// Default marks play no part.
///
/// Goes down the memberships, from each account that holds a grant of the right and the sign on the item or above it. Alters
/// nothing, and refuses nothing: the calls above check the account, the item and the right.
pub fn least_distance<P: Plan>(from: &Standing, plan: &P, access: Access, sign: Sign) -> Option<u8>
    requires { access.account < from.now.table.now.accounts }
    ensures { result ≡ nearest_of (map (λ a. a.distance) (keep (λ a. same_mark (Signed sign) a.mark) (listing from.now.table.now.accounts (standing from.now.table.now from.now.grants.now) (P.Plan.meaning plan.now) access.account access.item access.right))) }
{
    let above = item_counts(plan, access.item);
    nearest_from(from, &above, access, sign)
}
