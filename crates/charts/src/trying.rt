//! One chart: a book is made over the lent memory, calls are made on it, and all of the memory is compared.

use crate::chart::Chart;
use crate::comparing::{same_counts, same_grants};
use crate::matching::make_call;
use crate::stop::{Stop, unless_different};
use crate::tally::Tally;
use book::Book;
use model::call::{Call, Reply};
use model::grant::Grant;
use plans::Equipment;
use random::calling::any_call;
use random::generator::Random;
use random::setting::any_parts;
use random::shapes::Size;
use runs::make_and_run;
use std::alloc::Global;

// Makes the joins that are given.
fn join_first(
    book: &mut Book,
    chart: &mut Chart,
    random: &mut Random,
    pairs: &[(u32, u32)],
    tally: &mut Tally,
) -> Result<(), Stop> {
    let parts = any_parts(random);
    for pair in pairs.iter() {
        let call = Call::Join {
            group: pair.0,
            member: pair.1,
        };
        make_call(book, chart, call, parts, tally)?;
    }
    same_counts(&chart.lister, book.counts(), chart.lent.as_slice(), tally)
}

// Makes calls at random, and compares the whole table as often as the size says.
fn call_at_random(
    book: &mut Book,
    chart: &mut Chart,
    random: &mut Random,
    size: Size,
    tally: &mut Tally,
) -> Result<(), Stop> {
    for turn in 0..size.calls {
        let parts = any_parts(random);
        let known = chart.equipment.next();
        let call = any_call(random, &chart.lister, known, size.habit, parts);
        make_call(book, chart, call, parts, tally)?;
        if size.often > 0 && turn % size.often == 0 {
            same_counts(&chart.lister, book.counts(), chart.lent.as_slice(), tally)?;
        }
    }
    Ok(())
}

// Makes a book over the memory and all calls on it.
fn run(
    counts: &mut [u32],
    records: &mut [Grant],
    chart: &mut Chart,
    random: &mut Random,
    size: Size,
    pairs: &[(u32, u32)],
    tally: &mut Tally,
) -> Result<(), Stop> {
    let mut book = Book::make(counts, records);
    let accounts = tally.same(u64::from(chart.lister.accounts), book.accounts() as u64);
    let capacity = tally.same(chart.lister.capacity as u64, book.capacity() as u64);
    unless_different(accounts && capacity)?;
    join_first(&mut book, chart, random, pairs, tally)?;
    call_at_random(&mut book, chart, random, size, tally)
}

// Compares all of the lent memory.
fn same_memory(
    chart: &Chart,
    counts: &[u32],
    records: &[Grant],
    tally: &mut Tally,
) -> Result<(), Stop> {
    let same = same_grants(chart.lister.records.as_slice(), records, tally);
    same_counts(&chart.lister, counts, chart.lent.as_slice(), tally)?;
    unless_different(same)
}

// Makes a second book and all calls on it in one go, and compares the memory that it leaves.
fn run_again(heap: Global, chart: &Chart, tally: &mut Tally) -> Result<(), Stop> {
    let mut counts = Vec::from_slice(heap, chart.lent.as_slice())?;
    let mut records = Vec::from_slice(heap, chart.rubbish.as_slice())?;
    let mut replies = Vec::from_elem(heap, Reply::Done(Ok(())), chart.calls.len())?;
    make_all(
        counts.as_mut_slice(),
        records.as_mut_slice(),
        &chart.equipment,
        chart.calls.as_slice(),
        replies.as_mut_slice(),
    );
    same_memory(chart, counts.as_slice(), records.as_slice(), tally)
}

// Makes a book and all calls on it, and lets it go.
fn make_all(
    counts: &mut [u32],
    records: &mut [Grant],
    plan: &Equipment,
    calls: &[Call],
    replies: &mut [Reply],
) {
    let _book = make_and_run(counts, records, plan, calls, replies);
}

/// Tries a chart, and a small one again in one go. When the book is gone, all of the lent memory is compared.
pub fn try_chart(
    heap: Global,
    chart: &mut Chart,
    random: &mut Random,
    size: Size,
    pairs: &[(u32, u32)],
    tally: &mut Tally,
) -> Result<(), Stop> {
    tally.charts = tally.charts.wrapping_add(1);
    let mut counts = Vec::from_slice(heap, chart.lent.as_slice())?;
    let mut records = Vec::from_slice(heap, chart.rubbish.as_slice())?;
    run(
        counts.as_mut_slice(),
        records.as_mut_slice(),
        chart,
        random,
        size,
        pairs,
        tally,
    )?;
    same_memory(chart, counts.as_slice(), records.as_slice(), tally)?;
    if size.accounts > 10 {
        return Ok(());
    }
    run_again(heap, chart, tally)
}
