//! Lends a table more memory than it needs, filled with rubbish, and shows the counts of a diamond and of a row of accounts.
#![tactic(auto)]

ghost use Rattle.std.specs.Prelude.{◌≡◌, ℕ, ◌<◌, ◌≤◌, true, length, slice_index};

use chains::LENGTHS;
use joins::{join_in, leave_in};
use model::refusal::Refusal;
use std::{fmt, io};
use table::Table;

/// What lies in the memory before a table is made over it.
const RUBBISH: u32 = 7777;

/// How many counts are lent: nine accounts want 648 of them.
const LENT: usize = 700;

/// The memberships of the diamond: two ways lead from account 0 down to account 3.
const DIAMOND: [(usize, usize); 4] = [(0, 1), (0, 2), (1, 3), (2, 3)];

/// A row of eight accounts, and one more that would make a chain of eight.
const ROW: [(usize, usize); 8] = [
    (0, 1),
    (1, 2),
    (2, 3),
    (3, 4),
    (4, 5),
    (5, 6),
    (6, 7),
    (7, 8),
];

/// What speaks against a change of a membership.
#[derive(Clone, Copy)]
struct Against(Refusal);

impl fmt::Display for Against {
    fn fmt<W: fmt::Write>(&self, f: &mut fmt::Formatter<W>) -> fmt::Result {
        match self.0 {
            Refusal::UnknownAccount => write!(f, "an unknown account"),
            Refusal::Circle => write!(f, "a circle"),
            Refusal::MemberStands => write!(f, "it stands"),
            Refusal::ChainTooLong => write!(f, "a chain would be too long"),
            Refusal::CountTooLarge => write!(f, "a count would be too large"),
            Refusal::NotAMember => write!(f, "it does not stand"),
            other => write!(f, "refused: {other:?}"),
        }
    }
}

/// Prints how many chains lead from `a` down to `s`, for each length from 0 to 7.
fn print_row(rt: &HostRuntime, table: &Table, a: usize, s: usize) -> io::Result<()> {
    let n = table.accounts();
    if a >= n || s >= n {
        return Ok(());
    }
    let row = table.row(a, s);
    print!(rt; "chains from {a} to {s}, by length:")?;
    for chains in row {
        print!(rt; " {chains}")?;
    }
    println!(rt)
}

/// Joins the pairs one after the other, and prints what comes of each join.
fn join_all(rt: &HostRuntime, table: &mut Table, pairs: &[(usize, usize)]) -> io::Result<()> {
    for (group, member) in pairs {
        print!(rt; "join {group} {member}: ")?;
        match join_in(table, *group, *member) {
            Ok(()) => println!(rt; "joined")?,
            Err(refusal) => println!(rt; "{}", Against(refusal))?,
        }
    }
    Ok(())
}

fn show_diamond(rt: &HostRuntime, memory: &mut [u32]) -> io::Result<()> {
    let mut table = Table::make(memory);
    let n = table.accounts();
    println!(rt; "the diamond, with room for {n} accounts")?;
    join_all(rt, &mut table, &DIAMOND)?;
    print_row(rt, &table, 0, 3)?;
    print!(rt; "leave 0 1: ")?;
    match leave_in(&mut table, 0, 1) {
        Ok(()) => println!(rt; "left")?,
        Err(refusal) => println!(rt; "{}", Against(refusal))?,
    }
    print_row(rt, &table, 0, 3)
}

fn show_row(rt: &HostRuntime, memory: &mut [u32]) -> io::Result<()> {
    let mut table = Table::make(memory);
    println!(rt; "eight accounts in a row")?;
    join_all(rt, &mut table, &ROW)?;
    print_row(rt, &table, 0, 7)
}

/// Do all counts from `from` on still hold the rubbish?
fn untouched(memory: &[u32], from: usize) -> bool
    ensures { result ≡ true → (k : ℕ) → from ≤ k → k < length memory.now → slice_index memory.now k ≡ 7777 }
{
    memory.iter().skip(from).all(|count| *count == RUBBISH)
}

fn main(rt: HostRuntime) -> anyhow::Result<()> {
    let mut memory = [RUBBISH; LENT];
    show_diamond(&rt, &mut memory)?;
    show_row(&rt, &mut memory)?;
    let same = untouched(&memory, 9 * 9 * LENGTHS);
    println!(rt; "behind the table all is as it was: {same}")?;
    Ok(())
}
