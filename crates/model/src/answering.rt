//! The answer that a strategy gives on counted marks.

ghost use Rattle.std.specs.Prelude.{◌≡◌, ◌≤◌, List, length};
ghost use Rattle.model.specs.Question.{answer_of};
ghost use Rattle.strategies.specs.Rows.{CountsOf};
ghost use Rattle.strategies.specs.declared.marks.Arrival.{Arrival};

use crate::answer::Answer;
use strategies::resolving::resolve;
use strategies::rows::Rows;
use strategies::strategy::Strategy;

/// The answer on any arrivals that the rows count, and no total of it is larger than the number of arrivals.
pub fn answer_from(rows: &Rows, strategy: Strategy) -> Answer
    ensures answer { (l : List Arrival) → CountsOf rows.now l → result ≡ answer_of strategy l }
    ensures few { (l : List Arrival) → CountsOf rows.now l → (result.plus_total ≤ length l) × (result.minus_total ≤ length l) }
{
    let resolved = resolve(rows, strategy);
    Answer {
        sign: resolved.sign,
        plus: rows.plus.counts,
        minus: rows.minus.counts,
        default: rows.default.counts,
        plus_total: resolved.plus_total,
        minus_total: resolved.minus_total,
    }
}
