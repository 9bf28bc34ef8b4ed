//! What a question answers.

use strategies::marks::Sign;
use strategies::rows::DISTANCES;

/// The sign; how many marks of each kind arrive over each distance, before default marks are settled; and the totals of both
/// signs once they are.
// Arrays and not `Rows`: a row stops at 1,000,000,000,000, and the definitions give an answer for every list of arrivals.
#[derive(Clone, Copy, PartialEq, Eq, Debug)]
pub struct Answer {
    pub sign: Sign,
    pub plus: [u64; DISTANCES],
    pub minus: [u64; DISTANCES],
    pub default: [u64; DISTANCES],
    pub plus_total: u64,
    pub minus_total: u64,
}
