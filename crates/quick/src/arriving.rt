//! The arrivals that standing grants give.

ghost use Rattle.std.specs.Prelude.{◌≡◌, ℕ, ◌+◌, ◌<◌, ◌≤◌, false, length, slice_index, slice_index_or, slice_set, true};
ghost use Rattle.model.specs.Counted.{labelled_by, of_grant, of_grants};
ghost use Rattle.plans.specs.Counts.{entry};
ghost use Rattle.quick.specs.Sums.{RowLike};
ghost use Rattle.strategies.specs.declared.marks.Sign.TheVariants.{Plus, Minus};
ghost use Rattle.table.specs.Tables.{members_in};

use crate::sums::add_pairs;
use chains::MOST_ACCOUNTS;
use model::access::Access;
use model::grant::Grant;
use plans::{ItemCounts, any_chain};
use standing::Standing;
use strategies::marks::Sign;
use strategies::rows::DISTANCES;
use table::Table;

/// What the grants of a right give: the arrivals of each sign by distance, and which accounts hold a grant that counts.
#[derive(Clone, Copy)]
pub struct Arrived {
    pub plus: [u64; DISTANCES],
    pub minus: [u64; DISTANCES],
    pub held: [bool; MOST_ACCOUNTS],
}

impl Arrived {
    // Adds what one grant gives.
    fn add(&mut self, table: &Table, items: &ItemCounts, grant: Grant, s: usize)
        requires account { grant.account < table.now.accounts }
        requires item { grant.item < 256 }
        requires end { s < table.now.accounts }
        requires plus_room { (d : ℕ) → d < 15 → slice_index self.old.plus d ≤ 900000000000 }
        requires minus_room { (d : ℕ) → d < 15 → slice_index self.old.minus d ≤ 900000000000 }
        ensures plus { (d : ℕ) → d < 15 → slice_index self.new.plus d ≡ slice_index self.old.plus d + of_grant table.now.accounts (members_in table.now) (entry items.now.counts) s grant.right Plus d grant }
        ensures minus { (d : ℕ) → d < 15 → slice_index self.new.minus d ≡ slice_index self.old.minus d + of_grant table.now.accounts (members_in table.now) (entry items.now.counts) s grant.right Minus d grant }
        ensures held { self.new.held ≡ slice_set self.old.held grant.account true }
        ensures long { (length self.new.plus ≡ 15) × (length self.new.minus ≡ 15) }
    {
        self.held[grant.account as usize] = true;
        let ups = table.row(grant.account as usize, s);
        let lengths = &items.counts[grant.item as usize];
        // The call stands in both arms: of a row that the match lends, the proof loses sight after the call.
        match grant.sign {
            Sign::Plus => add_pairs(&mut self.plus, &ups, lengths),
            Sign::Minus => add_pairs(&mut self.minus, &ups, lengths),
        }
    }
}

/// What the grants of the right give, one after the other: a grant of another right costs a comparison.
pub fn arrive(from: &Standing, items: &ItemCounts, access: Access) -> Arrived
    requires { access.account < from.now.table.now.accounts }
    ensures plus { (d : ℕ) → d < 15 → slice_index result.plus d ≡ of_grants from.now.table.now.accounts (members_in from.now.table.now) from.now.grants.now (entry items.now.counts) access.account access.right Plus d }
    ensures minus { (d : ℕ) → d < 15 → slice_index result.minus d ≡ of_grants from.now.table.now.accounts (members_in from.now.table.now) from.now.grants.now (entry items.now.counts) access.account access.right Minus d }
    ensures held { (a : ℕ) → a < 64 → slice_index_or result.held a false ≡ labelled_by from.now.grants.now (entry items.now.counts) access.right a }
    ensures plus_row { RowLike result.plus }
    ensures minus_row { RowLike result.minus }
{
    let mut arrived = Arrived {
        plus: [0; DISTANCES],
        minus: [0; DISTANCES],
        held: [false; MOST_ACCOUNTS],
    };
    for grant in from.grants {
        if grant.right == access.right && items.leads_from(grant.item) {
            arrived.add(from.table, items, *grant, access.account as usize);
        }
    }
    arrived
}
