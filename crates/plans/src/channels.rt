ghost use Rattle.plans.specs.Channels.{channels};
ghost use Rattle.plans.specs.Halves.{channels_lawful};

use crate::plan::{Containers, Plan};

/// The channel plan: items 1 to 255 are known, item 1 lies in nothing, and item n above 1 lies in n / 2, the fraction dropped.
#[derive(Clone, Copy)]
pub struct Channels;

impl Plan for Channels {
    ghost meaning = { λ _. channels };

    ghost lawful = { λ plan. channels_lawful };

    fn known(&self, item: u32) -> bool {
        0 < item && item < 256
    }

    fn containers(&self, item: u32) -> Containers {
        if 1 < item && item < 256 {
            [Some(item / 2), None]
        } else {
            [None; 2]
        }
    }

    fn height(&self, item: u32) -> u32 {
        if self.known(item) { item.ilog2() } else { 0 }
    }
}
