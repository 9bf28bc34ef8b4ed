//! Calls written as an access list, a line of 18 bytes for each.

use model::access::Access;
use model::call::Call;
use random::adding::Item;
use std::fmt::Display;
use std::io;
use strategies::strategy::Strategy;

// A number as the list has room for it: one above 99,999 is refused as 99,999 is.
fn fitted(number: u32) -> u32 {
    number.min(99_999)
}

// A letter, an account, an item and a right, and what is behind them: a sign, or a blank.
fn print_access<D: Display + Copy>(
    rt: &HostRuntime,
    letter: char,
    access: Access,
    last: D,
) -> io::Result<()> {
    let account = fitted(access.account);
    let item = fitted(access.item);
    let right = fitted(access.right);
    println!(rt; "{letter}{account:>5}{item:>5}{right:>5} {last}")
}

// A letter, a group and a member.
fn print_pair(rt: &HostRuntime, letter: char, group: u32, member: u32) -> io::Result<()> {
    let group = fitted(group);
    let member = fitted(member);
    println!(rt; "{letter}{group:>5}{member:>5}       ")
}

// The line that chooses a strategy, its name at the right.
fn print_strategy(rt: &HostRuntime, strategy: Strategy) -> io::Result<()> {
    let blanks = 17usize.saturating_sub(strategy.name().len());
    println!(rt; "S{:>blanks$}{strategy}", "")
}

// A container's five columns.
fn print_container(rt: &HostRuntime, container: Option<u32>) -> io::Result<()> {
    match container {
        Some(item) => {
            let item = fitted(item);
            print!(rt; "{item:>5}")
        }
        None => print!(rt; "     "),
    }
}

/// An item that is added to the equipment table. A second container behind a missing first is its only one.
pub fn print_item(rt: &HostRuntime, added: Item) -> io::Result<()> {
    let item = fitted(added.item);
    print!(rt; "E{item:>5}")?;
    if added.first.is_some() {
        print_container(rt, added.first)?;
        print_container(rt, added.second)?;
    } else {
        print_container(rt, added.second)?;
        print_container(rt, None)?;
    }
    println!(rt; "  ")
}

/// A call; a question with its strategy in a line before it, and a least distance as a question.
pub fn print_call(rt: &HostRuntime, call: Call) -> io::Result<()> {
    match call {
        Call::Join { group, member } => print_pair(rt, 'J', group, member),
        Call::Leave { group, member } => print_pair(rt, 'L', group, member),
        Call::Give { grant } => print_access(rt, 'G', grant.access(), grant.sign),
        Call::Withdraw { access } => print_access(rt, 'W', access, ' '),
        Call::Quick { access, strategy } | Call::Walked { access, strategy } => {
            print_strategy(rt, strategy)?;
            print_access(rt, 'Q', access, ' ')
        }
        Call::Least { access, .. } => print_access(rt, 'Q', access, ' '),
    }
}
