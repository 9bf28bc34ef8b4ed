// What the walk finds for each kind of weight.
ghost use Rattle.std.specs.Prelude.{◌<◌, get_or, slice_index_or};
ghost use Rattle.chains.specs.Table.{shown_members};
ghost use Rattle.strategies.specs.Rows.{row_at};
ghost use Rattle.strategies.specs.declared.marks.Mark.{Mark};
ghost use Rattle.walk.specs.Every.{ChainsCanBeListed};
ghost use Rattle.walk.specs.Meaning.{ArrivalsCounted, Nearest};
ghost use Rattle.walk.specs.Least.{none};
ghost use Rattle.walk.specs.Counts.{no_counts, no_rows, count_at};

use crate::walking::walk;
use chains::MOST_ACCOUNTS;
use counts::reading::Counts;
use strategies::rows::{Row, Rows};

/// Every chain down to a known account can be listed, each once, where no chain is longer than 7: so the walk's sum over such a list
/// is always a sum over some list. Computes nothing.
pub fn every_chain_can_be_listed() -> u8
    ensures { ChainsCanBeListed }
{
    0
}

/// The least distance at which anything arrives at `s`, or none, where each account starts with a distance of its own or none.
///
/// Needs a known `s`. Alters nothing.
pub fn least_distance(counts: Counts, start: &[Option<u8>; MOST_ACCOUNTS], s: usize) -> Option<u8>
    requires { s < counts.accounts }
    ensures { Nearest (shown_members counts.entry.accounts counts.entry.numbers.now) (λ a. get_or start.now a none) s result }
{
    walk::<Option<u8>>(counts, start, s)
}

/// How many arrive at `s` at each distance, up to a million million, where each account starts with a row of its own.
///
/// Needs a known `s`. Alters nothing.
pub fn row_of_arrivals(counts: Counts, start: &[Row; MOST_ACCOUNTS], s: usize) -> Row
    requires { s < counts.accounts }
    ensures { ArrivalsCounted counts.entry.accounts (shown_members counts.entry.accounts counts.entry.numbers.now) (λ a. count_at (slice_index_or start.now a no_counts)) s (count_at result) }
{
    walk::<Row>(counts, start, s)
}

/// How many of each mark arrive at `s` at each distance, up to a million million, where each account starts with rows of its own.
///
/// Needs a known `s`. Alters nothing.
pub fn rows_of_arrivals(counts: Counts, start: &[Rows; MOST_ACCOUNTS], s: usize) -> Rows
    requires { s < counts.accounts }
    ensures { (m : Mark) → ArrivalsCounted counts.entry.accounts (shown_members counts.entry.accounts counts.entry.numbers.now) (λ a. row_at (slice_index_or start.now a no_rows) m) s (row_at result m) }
{
    walk::<Rows>(counts, start, s)
}
