//! Joins and leavings on the table, with their refusals.
#![tactic(auto)]

ghost use Rattle.chains.specs.Chains.{add, strike};
ghost use Rattle.model.specs.Model.{join_checks, leave_checks};
ghost use Rattle.model.specs.Refusals.{UnlessAccepted, checks, where_accepted};
ghost use Rattle.table.specs.Tables.{behind, members_in};
ghost use Rattle.std.specs.Prelude.{◌≡◌};

use model::refusal::Refusal;
use table::Table;

/// Makes `c` a member of `p`, unless a check refuses it.
pub fn join_in(table: &mut Table, p: usize, c: usize) -> Result<(), Refusal>
    ensures accounts { table.new.accounts ≡ table.old.accounts }
    ensures answer { result ≡ checks (join_checks table.old.accounts (members_in table.old) p c) }
    ensures after { members_in table.new ≡ where_accepted result (add (members_in table.old) p c) (members_in table.old) }
    ensures memory { behind table.new ≡ behind table.old }
    ensures refused { UnlessAccepted result (table.new ≡ table.old) }
{
    let n = table.accounts();
    if p >= n || c >= n {
        return Err(Refusal::UnknownAccount);
    }
    if table.leads(c, p) {
        return Err(Refusal::Circle);
    }
    if table.stands(p, c) {
        return Err(Refusal::MemberStands);
    }
    if table.too_long(p, c) {
        return Err(Refusal::ChainTooLong);
    }
    if table.too_many(p, c) {
        return Err(Refusal::CountTooLarge);
    }
    table.add(p, c);
    Ok(())
}

/// Ends the membership of `c` in `p`, unless a check refuses it.
pub fn leave_in(table: &mut Table, p: usize, c: usize) -> Result<(), Refusal>
    ensures accounts { table.new.accounts ≡ table.old.accounts }
    ensures answer { result ≡ checks (leave_checks table.old.accounts (members_in table.old) p c) }
    ensures after { members_in table.new ≡ where_accepted result (strike (members_in table.old) p c) (members_in table.old) }
    ensures memory { behind table.new ≡ behind table.old }
    ensures refused { UnlessAccepted result (table.new ≡ table.old) }
{
    let n = table.accounts();
    if p >= n || c >= n {
        return Err(Refusal::UnknownAccount);
    }
    if !table.stands(p, c) {
        return Err(Refusal::NotAMember);
    }
    table.strike(p, c);
    Ok(())
}
