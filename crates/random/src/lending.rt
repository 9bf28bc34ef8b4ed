//! The memory that is lent to a book, filled with rubbish.

use crate::generator::Random;
use crate::setting::any_sign;
use model::grant::Grant;
use std::alloc::{AllocError, Global};

/// Counts for so many accounts and not for one more, or for more than 64, filled with rubbish.
pub fn lent_counts(
    heap: Global,
    random: &mut Random,
    accounts: u32,
) -> Result<Vec<u32>, AllocError> {
    let needed = accounts.wrapping_mul(accounts).wrapping_mul(8);
    let more = if accounts < 64 {
        accounts.wrapping_mul(16).wrapping_add(8)
    } else {
        4000
    };
    let extra = match random.below(3) {
        0 => 0,
        1 => more.wrapping_sub(1),
        _ => random.below(more),
    };
    (0..needed.wrapping_add(extra))
        .map(|_place| random.below(200_000))
        .collect(heap)
}

/// Records filled with rubbish that looks like grants.
pub fn lent_records(
    heap: Global,
    random: &mut Random,
    many: u32,
) -> Result<Vec<Grant>, AllocError> {
    (0..many)
        .map(|_place| Grant {
            account: random.below(70),
            item: random.below(300),
            right: random.below(10),
            sign: any_sign(random),
        })
        .collect(heap)
}
