//! Sizes and shapes of the charts that are tried.

use crate::calling::Habit;
use crate::generator::Random;
use std::alloc::{AllocError, Global};
use std::ops::Range;

/// How large a chart is, how many calls are made on it, and after how many of them the whole table is compared.
#[derive(Clone, Copy, PartialEq, Eq, Debug)]
pub struct Size {
    pub accounts: u32,
    pub records: u32,
    pub items: u32,
    pub calls: u32,
    pub often: u32,
    pub habit: Habit,
}

/// Up to ten accounts and eleven records; the table is compared after each call.
pub fn small(random: &mut Random) -> Size {
    Size {
        accounts: random.below(11),
        records: random.below(12),
        items: random.below(40),
        calls: random.below(48),
        often: 1,
        habit: Habit {
            joins: 35,
            leaves: 10,
            gives: 18,
            withdrawals: 7,
        },
    }
}

/// Eleven to sixty-four accounts.
pub fn middle(random: &mut Random) -> Size {
    Size {
        accounts: random.below(54).wrapping_add(11),
        records: random.below(100),
        items: random.below(290),
        calls: random.below(200).wrapping_add(100),
        often: 40,
        habit: Habit {
            joins: 50,
            leaves: 5,
            gives: 15,
            withdrawals: 5,
        },
    }
}

/// Few accounts, and up to 600 records, of which 512 count: a book that is filled up.
pub fn crowded(random: &mut Random) -> Size {
    Size {
        accounts: random.below(4).wrapping_add(5),
        records: random.below(121).wrapping_add(480),
        items: random.below(256),
        calls: 2500,
        often: 500,
        habit: Habit {
            joins: 2,
            leaves: 1,
            gives: 90,
            withdrawals: 2,
        },
    }
}

/// A chart whose first calls are joins that are given.
pub fn joined(accounts: u32) -> Size {
    Size {
        accounts,
        records: 24,
        items: 60,
        calls: 40,
        often: 100,
        habit: Habit {
            joins: 20,
            leaves: 10,
            gives: 30,
            withdrawals: 5,
        },
    }
}

/// Accounts and the joins that are made first.
#[derive(Drop)]
pub struct Joins {
    pub accounts: u32,
    pub pairs: Vec<(u32, u32)>,
}

// Adds a join of every account of a layer to every account of the next.
fn join_layers(
    pairs: &mut Vec<(u32, u32)>,
    above: Range<u32>,
    below: Range<u32>,
) -> Result<(), AllocError> {
    for group in above {
        for member in below.start..below.end {
            pairs.push((group, member))?;
        }
    }
    Ok(())
}

/// One account at the top, five or six layers, and one account at the bottom, about 100,000 chains between both; from below.
pub fn spindle(heap: Global, random: &mut Random) -> Result<Joins, AllocError> {
    let mut pairs = Vec::new(heap);
    let (layers, width) = if random.once_in(2) {
        (5u32, 10u32)
    } else {
        (6, 7)
    };
    let mut end = 63u32;
    let mut layer = end..64;
    for _layer in 0..layers {
        let wider = width.wrapping_add(random.below(3)).wrapping_sub(1);
        let start = end.saturating_sub(wider);
        join_layers(&mut pairs, start..end, layer)?;
        layer = start..end;
        end = start;
    }
    join_layers(&mut pairs, 0..1, layer)?;
    Ok(Joins {
        accounts: 64,
        pairs,
    })
}

/// Five layers of ten full accounts and a thin one: 99,999 chains of length 6, and one join more would make 100,000.
pub fn brim(heap: Global) -> Result<Joins, AllocError> {
    let mut pairs = Vec::new(heap);
    join_layers(&mut pairs, 45..55, 56..57)?;
    for layer in 0..4u32 {
        let start = 34u32.wrapping_sub(layer.wrapping_mul(11));
        let full = start.wrapping_add(10);
        let next = start.wrapping_add(11);
        let next_full = start.wrapping_add(21);
        join_layers(&mut pairs, start..full, next..next_full)?;
        join_layers(
            &mut pairs,
            full..next,
            next.wrapping_add(1)..next_full.wrapping_add(1),
        )?;
    }
    join_layers(&mut pairs, 0..1, 2..12)?;
    pairs.push((55, 56))?;
    Ok(Joins {
        accounts: 57,
        pairs,
    })
}
