ghost use Rattle.std.specs.Prelude.{◌≡◌, OnErr};
ghost use Rattle.std.specs.Option.{option_to_list};
ghost use Rattle.plans.specs.Items.{tallest, height_of};
ghost use Rattle.plans.specs.Equipment.{filled_place, twice};
ghost use Rattle.plans.specs.Laws.{HeightIsLongest};
ghost use Rattle.plans.specs.Filling.{some_unknown, add_answer, add_after};
ghost use Rattle.plans.specs.Table.{table};
ghost use Rattle.plans.specs.Sound.{equipment_lawful};

use crate::equipment::Equipment;
use crate::place::Place;
use crate::plan::{Containers, ITEMS, Plan};
use crate::refusal::EquipmentRefusal;

// The most containers that a run has.
const HIGHEST: u32 = 7;

impl Plan for Equipment {
    ghost meaning = { table };

    ghost lawful = { λ e. equipment_lawful e.places e.filled e.good e.within };

    fn known(&self, item: u32) -> bool {
        item < self.filled
    }

    fn containers(&self, item: u32) -> Containers {
        // A match and not `map_or`: of the array that its closure gives, no proof closed.
        match self.place(item) {
            Some(place) => [place.first, place.second],
            None => [None; 2],
        }
    }

    fn height(&self, item: u32) -> u32 {
        self.place(item).map_or(0, |place| place.height)
    }
}

impl Equipment {
    // The place that the item fills, if it is known.
    fn place(&self, item: u32) -> Option<Place>
        ensures answer { result ≡ filled_place self.now.places self.now.filled item }
    {
        if self.known(item) {
            Some(self.places[item as usize])
        } else {
            None
        }
    }

    // Is this container, where there is one, not known?
    fn lacks(&self, container: Option<u32>) -> bool
        ensures answer { result ≡ some_unknown (table self.now) (option_to_list container) }
    {
        container.is_some_and(|c| !self.known(c))
    }

    // The height of an item that lies in this container alone.
    fn height_in(&self, container: Option<u32>) -> u32
        ensures answer { result ≡ tallest (height_of (table self.now)) (option_to_list container) }
    {
        container.map_or(0, |c| self.height(c) + 1)
    }

    /// Adds the next item, with the containers that it lies in. A second container behind a missing first is its only one.
    ///
    /// Refused, in this order, where the item is not the next number or is 256, where a container is not known or both are equal, and where the item's
    /// height would be 8. A refusal changes nothing.
    pub fn add(
        &mut self,
        item: u32,
        first: Option<u32>,
        second: Option<u32>,
    ) -> Result<(), EquipmentRefusal>
        ensures answer { result ≡ add_answer (table self.old) item first second }
        ensures after { table self.new ≡ add_after (table self.old) item first second }
        ensures same { OnErr result (self.new ≡ self.old) }
        ensures height { HeightIsLongest }
    {
        if item != self.filled || item as usize == ITEMS {
            return Err(EquipmentRefusal::NotNext);
        }
        if self.lacks(first) || self.lacks(second) || same(first, second) {
            return Err(EquipmentRefusal::BadContainer);
        }
        let height = self.height_in(first).max(self.height_in(second));
        if height > HIGHEST {
            return Err(EquipmentRefusal::TooHigh);
        }
        self.places[item as usize] = Place {
            first,
            second,
            height,
        };
        self.filled += 1;
        Ok(())
    }
}

// Are both containers there, and equal?
fn same(first: Option<u32>, second: Option<u32>) -> bool
    ensures answer { result ≡ twice first second }
{
    first.is_some() && first == second
}
