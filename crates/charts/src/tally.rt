//! What was done so far, and the figures that are printed of it.

use numbered::Numbered;
use std::io;

/// How much was tried and compared.
#[derive(Drop)]
pub struct Tally {
    pub charts: u64,
    pub calls: u64,
    pub refusals: [u64; 16],
    pub quick: u64,
    pub walked: u64,
    pub least: u64,
    pub compared: u64,
    pub largest_count: u64,
    pub largest_total: u64,
}

impl Tally {
    /// Nothing was done.
    pub fn none() -> Tally {
        Tally {
            charts: 0,
            calls: 0,
            refusals: [0; 16],
            quick: 0,
            walked: 0,
            least: 0,
            compared: 0,
            largest_count: 0,
            largest_total: 0,
        }
    }

    /// Compares two numbers, and counts that.
    pub fn same(&mut self, listed: u64, told: u64) -> bool {
        self.compared = self.compared.wrapping_add(1);
        listed == told
    }

    /// Compares as many numbers as both have, one by one.
    pub fn same_each<T: Copy + Into<u64>>(&mut self, listed: &[T], told: &[T]) -> bool {
        let mut same = true;
        for (ours, theirs) in listed.iter().zip(told) {
            same &= self.same((*ours).into(), (*theirs).into());
        }
        same
    }

    /// Compares the number of the lister's refusal with that of the refusal that was told, and counts the latter; 0 is none.
    pub fn same_refusal<R: Numbered>(&mut self, listed: u32, told: Option<R>) -> bool {
        let told = told.map_or(0, |refusal| refusal.number());
        if let Some(count) = self.refusals.get_mut(told as usize) {
            *count = count.wrapping_add(1);
        }
        self.same(u64::from(listed), u64::from(told))
    }

    /// Prints the figures.
    pub fn print(&self, rt: &HostRuntime) -> io::Result<()> {
        println!(rt; "charts {}", self.charts)?;
        println!(rt; "calls on the book {}", self.calls)?;
        for (number, count) in self.refusals.iter().enumerate().skip(1) {
            println!(rt; "refused with {number}: {count}")?;
        }
        println!(rt; "quick questions {}", self.quick)?;
        println!(rt; "walked questions {}", self.walked)?;
        println!(rt; "least distances {}", self.least)?;
        println!(rt; "numbers compared {}", self.compared)?;
        println!(rt; "largest count of chains {}", self.largest_count)?;
        println!(rt; "largest total of a sign {}", self.largest_total)
    }
}
