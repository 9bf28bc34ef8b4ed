//! The marks that grants give to the accounts that hold them.

ghost use Rattle.std.specs.Prelude.{◌≡◌, ◌<◌};
ghost use Rattle.walked.specs.Starts.{InRange, lengths_in};
ghost use Rattle.walked.specs.Taking.{
  FromGrants,
  NothingYet,
  OneMore,
  raised,
  raised_rows,
  taken,
};

use crate::starts::Starts;
use chains::MOST_ACCOUNTS;
use model::grant::Grant;
use plans::{ItemCounts, Lengths, any_chain};
use std::array;
use strategies::marks::Sign;
use strategies::rows::{Row, Rows};
use walk::row_weight::together;
use walk::weight::Weight;

// The row with the chains of each length added at their distance.
fn raise(row: &Row, chains: &Lengths) -> Row
    ensures { result ≡ raised row.now chains.now }
{
    Row {
        counts: array::from_fn(|d| {
            let chains = chains.get(d).copied().unwrap_or(0);
            together(row.counts[d], chains as u64)
        }),
    }
}

// The rows with the chains added to the row of the sign.
fn raise_sign(rows: &Rows, sign: Sign, chains: &Lengths) -> Rows
    ensures { result ≡ raised_rows sign chains.now rows.now }
{
    match sign {
        Sign::Plus => Rows {
            plus: raise(&rows.plus, chains),
            ..*rows
        },
        Sign::Minus => Rows {
            minus: raise(&rows.minus, chains),
            ..*rows
        },
    }
}

// Nothing at any account.
fn no_starts() -> Starts
    ensures { NothingYet result }
{
    Starts {
        rows: [Rows::nothing(); MOST_ACCOUNTS],
        held: [false; MOST_ACCOUNTS],
    }
}

// Adds the chains from a grant's item to the start of its account, which then holds a grant that counts.
fn take_in(starts: &mut Starts, grant: &Grant, chains: &Lengths)
    requires { grant.now.account < 64 }
    ensures { starts.new ≡ taken starts.old grant.now chains.now }
{
    let account = grant.account as usize;
    let rows = starts.rows[account];
    starts.rows[account] = raise_sign(&rows, grant.sign, chains);
    starts.held[account] = true;
}

// Takes a grant in if a chain leads down from its item.
fn add_grant(starts: &mut Starts, above: &ItemCounts, grant: &Grant)
    requires { grant.now.account < 64 }
    ensures { OneMore (lengths_in above.now.counts) grant.now starts.old starts.new }
{
    let chains = above.row(grant.item);
    if any_chain(&chains) {
        take_in(starts, grant, &chains);
    }
}

/// What the grants of the right give to each account: for each of them, one arrival of its sign for every chain from its item.
pub fn grants_start(grants: &[Grant], above: &ItemCounts, right: u32) -> Starts
    requires { InRange grants.now }
    ensures { FromGrants grants.now (lengths_in above.now.counts) right result }
{
    let mut starts = no_starts();
    for grant in grants {
        if grant.right == right {
            add_grant(&mut starts, above, grant);
        }
    }
    starts
}
