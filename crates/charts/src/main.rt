//! Makes random charts and random calls on the book, and compares all that it holds and tells with a lister that walks every
//! chain one by one. An argument says how many charts; at the first difference the calls are printed as an access list.
#![tactic(auto)]

mod chart;
mod comparing;
mod filling;
mod matching;
mod showing;
mod stop;
mod tally;
mod trying;

use anyhow::anyhow;
use chart::Chart;
use filling::fill;
use lister::lister::Lister;
use plans::Equipment;
use random::generator::Random;
use random::lending::{lent_counts, lent_records};
use random::shapes;
use random::shapes::{Joins, Size};
use showing::{print_call, print_item};
use std::{env, io};
use stop::Stop;
use tally::Tally;
use trying::try_chart;

/// How many charts are tried where no argument says another number.
const CHARTS: u32 = 3000;

// Prints the items and the calls of a chart as an access list, and ends in an error.
fn report(rt: &HostRuntime, chart: &Chart) -> anyhow::Result<()> {
    eprintln!(rt; "a difference at the last of these calls")?;
    for item in chart.items.iter() {
        print_item(rt, *item)?;
    }
    for call in chart.calls.iter() {
        print_call(rt, *call)?;
    }
    Err(anyhow!("a difference"))
}

// Makes a chart of the size, and tries it.
fn try_one(
    rt: &HostRuntime,
    random: &mut Random,
    size: Size,
    pairs: &[(u32, u32)],
    tally: &mut Tally,
) -> anyhow::Result<()> {
    let heap = rt.alloc();
    let mut equipment = Equipment::new();
    let mut items = Vec::new(heap);
    let filled = fill(heap, random, &mut equipment, size.items, &mut items, tally);
    let lent = lent_counts(heap, random, size.accounts)?;
    let rubbish = lent_records(heap, random, size.records)?;
    let lister = Lister::new(heap, lent.len(), rubbish.as_slice())?;
    let mut chart = Chart {
        lister,
        equipment,
        items,
        lent,
        rubbish,
        calls: Vec::new(heap),
    };
    let tried = filled.and_then(|()| try_chart(heap, &mut chart, random, size, pairs, tally));
    match tried {
        Ok(()) => Ok(()),
        Err(Stop::Difference) => report(rt, &chart),
        Err(Stop::NoMemory(error)) => Err(error.into()),
    }
}

// Tries a chart that begins with the joins.
fn try_joined(
    rt: &HostRuntime,
    random: &mut Random,
    joins: Joins,
    tally: &mut Tally,
) -> anyhow::Result<()> {
    let size = shapes::joined(joins.accounts);
    try_one(rt, random, size, joins.pairs.as_slice(), tally)
}

// Tries the chart with the number: most are small.
fn try_numbered(rt: &HostRuntime, number: u32, tally: &mut Tally) -> anyhow::Result<()> {
    let mut random = Random::seeded(u64::from(number).wrapping_add(1));
    if number == 0 {
        let joins = shapes::brim(rt.alloc())?;
        return try_joined(rt, &mut random, joins, tally);
    }
    if number % 500 == 0 {
        let joins = shapes::spindle(rt.alloc(), &mut random)?;
        return try_joined(rt, &mut random, joins, tally);
    }
    let size = if number % 500 == 250 {
        shapes::crowded(&mut random)
    } else if number % 25 == 7 {
        shapes::middle(&mut random)
    } else {
        shapes::small(&mut random)
    };
    try_one(rt, &mut random, size, &[], tally)
}

// The number that the first argument is, if there is one.
fn charts_asked(rt: &HostRuntime) -> anyhow::Result<u32> {
    match env::args(rt)?.nth(1) {
        Some(argument) => Ok(argument.as_str().parse::<u32>()?),
        None => Ok(CHARTS),
    }
}

fn main(rt: HostRuntime) -> anyhow::Result<()> {
    let charts = charts_asked(&rt)?;
    let mut tally = Tally::none();
    for number in 0..charts {
        try_numbered(&rt, number, &mut tally)?;
    }
    tally.print(&rt)?;
    println!(rt; "differences 0")?;
    Ok(())
}
