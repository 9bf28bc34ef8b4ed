//! Equipment tables filled at random, each refusal compared with that of the plain rule.

use crate::stop::{Stop, unless_different};
use crate::tally::Tally;
use lister::every_chain::item_chains;
use plans::Equipment;
use random::adding::{Item, any_added};
use random::generator::Random;
use std::alloc::{AllocError, Global};

// Why the plain rule refuses an item, with the number that a caller is told; read by `as`, as those of the lister are.
#[derive(Clone, Copy, PartialEq, Eq, Debug)]
enum Misplaced {
    // The item is not the next one, or above 255.
    Item = 13,
    // A container is unknown, or both are the same.
    Container = 14,
    // A chain up from the item would be longer than 7.
    Height = 15,
}

// The length of the longest chain up from a container and the item below it; 0 without one.
fn height_in(heap: Global, table: &Equipment, container: Option<u32>) -> Result<usize, AllocError> {
    let Some(item) = container else {
        return Ok(0);
    };
    let chains = item_chains(heap, table, item)?;
    let longest = chains
        .iter()
        .map(|chain| chain.length.wrapping_add(1))
        .max();
    Ok(longest.unwrap_or(0))
}

// Is it a container that the table does not know yet?
fn unknown(container: Option<u32>, next: u32) -> bool {
    container.is_some_and(|item| item >= next)
}

// What the plain rule refuses, if it does.
fn refusal_of(
    heap: Global,
    table: &Equipment,
    added: Item,
) -> Result<Option<Misplaced>, AllocError> {
    let next = table.next();
    if added.item != next || added.item > 255 {
        return Ok(Some(Misplaced::Item));
    }
    if unknown(added.first, next) || unknown(added.second, next) {
        return Ok(Some(Misplaced::Container));
    }
    if added.first.is_some() && added.first == added.second {
        return Ok(Some(Misplaced::Container));
    }
    let first = height_in(heap, table, added.first)?;
    let second = height_in(heap, table, added.second)?;
    Ok((first.max(second) > 7).then_some(Misplaced::Height))
}

/// Adds items so many times, and stops where a refusal is not that of the plain rule.
pub fn fill(
    heap: Global,
    random: &mut Random,
    table: &mut Equipment,
    times: u32,
    items: &mut Vec<Item>,
    tally: &mut Tally,
) -> Result<(), Stop> {
    for _time in 0..times {
        let added = any_added(random, table.next());
        items.push(added)?;
        let listed = refusal_of(heap, table, added)?.map_or(0, |misplaced| misplaced as u32);
        let told = table.add(added.item, added.first, added.second);
        unless_different(tally.same_refusal(listed, told.err()))?;
    }
    Ok(())
}
