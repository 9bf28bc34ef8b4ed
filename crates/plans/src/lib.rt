//! Plans of items: which items are known, in which containers each lies, and the item chains that they form.
#![tactic(auto)]

mod channels;
mod counting;
mod counts;
mod equipment;
mod place;
mod plan;
mod refusal;

pub use channels::Channels;
pub use counting::item_counts;
pub use counts::{ItemCounts, LENGTHS, Lengths, any_chain};
pub use equipment::Equipment;
pub use plan::{Containers, ITEMS, Plan};
pub use refusal::EquipmentRefusal;
