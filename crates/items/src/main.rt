//! Prints the chains above one item of the channel plan, and an equipment table as it is filled, with every refusal.
#![tactic(auto)]

use numbered::Numbered;
use plans::{Channels, Equipment, Plan, item_counts};
use std::io;

// The items that are added, each with the containers that the call names.
const CALLS: [(u32, Option<u32>, Option<u32>); 16] = [
    (1, None, None),
    (0, None, None),
    (1, Some(0), None),
    (2, Some(0), None),
    (3, Some(1), Some(2)),
    (4, Some(3), Some(3)),
    (4, Some(3), Some(4)),
    (4, None, Some(3)),
    (5, Some(4), Some(1)),
    (6, Some(5), None),
    (7, Some(6), None),
    (8, Some(7), None),
    (9, Some(2), Some(8)),
    (9, Some(8), Some(9)),
    (10, None, None),
    (9, Some(7), Some(4)),
];

// The chains that lead down to an item: from which item, of which length, and how many.
fn print_chains<P: Plan>(rt: &HostRuntime, plan: &P, item: u32) -> io::Result<()> {
    let height = plan.height(item);
    println!(rt; "chains to item {item}, of height {height}")?;
    let chains = item_counts(plan, item);
    for (above, row) in chains.counts.iter().enumerate() {
        for (length, count) in row.iter().enumerate() {
            if *count > 0 {
                println!(rt; "  from item {above}, length {length}: {count}")?;
            }
        }
    }
    Ok(())
}

// Prints the item that is added, with its containers.
fn print_call(
    rt: &HostRuntime,
    item: u32,
    first: Option<u32>,
    second: Option<u32>,
) -> io::Result<()> {
    print!(rt; "item {item}")?;
    for container in first.into_iter().chain(second) {
        print!(rt; " in {container}")?;
    }
    Ok(())
}

// Adds the items of the list, and prints what each call answers.
fn fill(rt: &HostRuntime, table: &mut Equipment) -> io::Result<()> {
    for (item, first, second) in CALLS {
        print_call(rt, item, first, second)?;
        match table.add(item, first, second) {
            Ok(()) => println!(rt; ": height {}", table.height(item))?,
            Err(refusal) => println!(rt; ": refused, {}", refusal.number())?,
        }
    }
    Ok(())
}

// Adds items without containers until one is refused.
fn fill_up(rt: &HostRuntime, table: &mut Equipment) -> io::Result<()> {
    for item in table.next()..=256 {
        if let Err(refusal) = table.add(item, None, None) {
            println!(rt; "item {item}: refused, {}", refusal.number())?;
        }
    }
    Ok(())
}

fn main(rt: HostRuntime) -> anyhow::Result<()> {
    println!(rt; "the channel plan")?;
    print_chains(&rt, &Channels, 77)?;
    println!(rt; "the equipment table")?;
    let mut table = Equipment::new();
    fill(&rt, &mut table)?;
    print_chains(&rt, &table, 8)?;
    fill_up(&rt, &mut table)?;
    print_chains(&rt, &table, 255)?;
    Ok(())
}
