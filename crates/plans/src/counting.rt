ghost use Rattle.std.specs.Prelude.{◌≡◌, ℕ, suc, ◌+◌, ◌<◌, ◌≤◌, cond, ◌==◌, slice_index};
ghost use Rattle.plans.specs.Counts.{entry, CountsItems};
ghost use Rattle.plans.specs.Above.{Lengthened, Passed};
ghost use Rattle.plans.specs.Laws.{FewBetweenTwo, FewToAnItem, ItemListingIsExact, NoLongerChain};

use crate::counts::{ItemCounts, LENGTHS, Lengths};
use crate::plan::{ITEMS, Plan};
use std::array;

// A row with the chains of another counted too, each longer by a container.
fn longer(row: Lengths, chains: Lengths) -> Lengths
    requires { (k : ℕ) → k < 7 → slice_index row (suc k) + slice_index chains k ≤ 128 }
    ensures first { slice_index result 0 ≡ slice_index row 0 }
    ensures rest { (k : ℕ) → k < 7 → slice_index result (suc k) ≡ slice_index row (suc k) + slice_index chains k }
{
    array::from_fn(|k| if k == 0 {
        row[0]
    } else {
        row[k] + chains[k - 1]
    })
}

impl ItemCounts {
    // Nothing is counted.
    fn none() -> ItemCounts
        ensures { (b k : ℕ) → b < 256 → entry result.counts b k ≡ 0 }
    {
        ItemCounts {
            counts: [[0; LENGTHS]; ITEMS],
        }
    }

    // Counts the chain that is the item itself, where nothing is counted yet.
    fn begin(&mut self, item: usize)
        requires known { item < 256 }
        requires none { (b k : ℕ) → b < 256 → entry self.old.counts b k ≡ 0 }
        ensures start { (b : ℕ) → b < 256 → entry self.new.counts b 0 ≡ cond (b == item) 1 0 }
        ensures rest { (b k : ℕ) → b < 256 → entry self.new.counts b (suc k) ≡ 0 }
    {
        self.counts[item][0] = 1;
    }

    // For each chain from item `from`, counts the one that is longer by a container, from item `to`.
    fn lengthen(&mut self, from: usize, to: usize)
        requires room { (from < 256) × (to < from) }
        requires fits { (k : ℕ) → k < 7 → entry self.old.counts to (suc k) + entry self.old.counts from k ≤ 128 }
        ensures longer { Lengthened from to (entry self.old.counts) (entry self.new.counts) }
    {
        self.counts[to] = longer(self.counts[to], self.counts[from]);
    }
}

// Passes the chains from an item on to its containers.
fn pass_up<P: Plan>(plan: &P, chains: &mut ItemCounts, o: u32, item: u32)
    requires { (item < 256) × (Passed (P.Plan.meaning plan.now) o (item + 1) (entry chains.old.counts)) }
    ensures passed { Passed (P.Plan.meaning plan.now) o item (entry chains.new.counts) }
{
    if !chains.leads_from(item) {
        return;
    }
    // An `if let` and no `flatten`: over the array the invariant speaks of the containers that are left, and under `flatten` no place is known.
    for container in plan.containers(item) {
        if let Some(container) = container {
            chains.lengthen(item as usize, container as usize);
        }
    }
}

// The chains that lead down to an item, counted in one pass over the items up to it, from the item downwards.
fn counts_to<P: Plan>(plan: &P, o: u32) -> ItemCounts
    ensures counted { CountsItems (P.Plan.meaning plan.now) o result.counts }
{
    let mut chains = ItemCounts::none();
    if o as usize >= ITEMS {
        return chains;
    }
    chains.begin(o as usize);
    for item in (0..=o).rev() {
        pass_up(plan, &mut chains, o, item);
    }
    chains
}

/// How many chains of each length lead down to an item, from every item.
///
/// No item is refused: to an item above 255 nothing leads. The other clauses are laws of every plan: what is counted are the item
/// chains, each once; none has more than 7 containers; and there are few, from all items together and from one.
pub fn item_counts<P: Plan>(plan: &P, item: u32) -> ItemCounts
    ensures counted { CountsItems (P.Plan.meaning plan.now) item result.counts }
    ensures listed { ItemListingIsExact }
    ensures short { NoLongerChain }
    ensures few { FewToAnItem }
    ensures between { FewBetweenTwo }
{
    counts_to(plan, item)
}
