//! A chart, and what is kept of it.

use lister::lister::Lister;
use model::call::Call;
use model::grant::Grant;
use plans::Equipment;
use random::adding::Item;

/// A chart: what the lister keeps of it, its equipment table, what lay in the lent counts and records, and
/// what was called so far.
#[derive(Drop)]
pub struct Chart {
    pub lister: Lister,
    pub equipment: Equipment,
    pub items: Vec<Item>,
    pub lent: Vec<u32>,
    pub rubbish: Vec<Grant>,
    pub calls: Vec<Call>,
}
