//! What ends a chart before all of it is tried.

use std::alloc::{AllocError, AllocFailed};

/// What ends a chart: a difference between the book and the lister, or that there is no memory for the lists.
#[derive(Clone, Copy, PartialEq, Eq, Debug)]
pub enum Stop {
    Difference,
    NoMemory(AllocError),
}

impl From<AllocError> for Stop {
    // A lack of memory ends the chart,
    fn from(error: AllocError) -> Stop {
        Stop::NoMemory(error)
    }
}

impl<T: Drop> From<AllocFailed<T>> for Stop {
    // also where it is known what found no room.
    fn from(failed: AllocFailed<T>) -> Stop {
        Stop::NoMemory(AllocError::from(failed))
    }
}

/// Stops where what was compared is not the same.
pub fn unless_different(same: bool) -> Result<(), Stop> {
    if same { Ok(()) } else { Err(Stop::Difference) }
}
