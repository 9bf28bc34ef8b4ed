//! What a record of a call asks for.

use model::call::Call;

/// A call on the book, a question of which is put over one of two plans, or an item for the equipment table.
#[derive(Clone, Copy)]
pub enum Request {
    OverChannels(Call),
    OverEquipment(Call),
    Equip {
        item: u32,
        first: Option<u32>,
        second: Option<u32>,
    },
}
