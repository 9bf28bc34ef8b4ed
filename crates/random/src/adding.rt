//! Items at random: in their order, in containers that are known, and now and then what must be refused.

use crate::generator::Random;

/// An item that is to be added, and its containers.
#[derive(Clone, Copy, PartialEq, Eq, Debug)]
pub struct Item {
    pub item: u32,
    pub first: Option<u32>,
    pub second: Option<u32>,
}

// A container: none, one of the last few items, or any; sometimes an unknown one.
fn any_container(random: &mut Random, next: u32) -> Option<u32> {
    if random.once_in(30) {
        return Some(next.saturating_add(random.below(3)));
    }
    if next == 0 || random.once_in(4) {
        return None;
    }
    if random.once_in(2) {
        return Some(random.below(next));
    }
    Some(next.saturating_sub(random.below(3).wrapping_add(1)))
}

/// An item to add to a table whose next item is `next`.
pub fn any_added(random: &mut Random, next: u32) -> Item {
    let item = if random.once_in(12) {
        random.below(300)
    } else {
        next
    };
    let first = any_container(random, next);
    let second = if random.once_in(12) {
        first
    } else {
        any_container(random, next)
    };
    Item {
        item,
        first,
        second,
    }
}
