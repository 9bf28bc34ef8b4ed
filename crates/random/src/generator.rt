//! Numbers that look random and are the same in every run.

ghost use Rattle.std.specs.Prelude.{◌<◌};

/// A generator: a state that is shifted and mixed at each step.
#[derive(Drop)]
pub struct Random {
    state: u64,
}

impl Random {
    /// The generator of a seed.
    pub fn seeded(seed: u64) -> Random {
        Random {
            state: seed.wrapping_mul(0x9E37_79B9_7F4A_7C15) | 1,
        }
    }

    // The next number, of all 64 bits.
    fn next(&mut self) -> u64 {
        let mut x = self.state;
        x ^= x >> 12;
        x ^= x.wrapping_mul(0x200_0000);
        x ^= x >> 27;
        self.state = x;
        x.wrapping_mul(0x2545_F491_4F6C_DD1D)
    }

    /// A number below `end`, or 0 if that is 0.
    pub fn below(&mut self, end: u32) -> u32
        ensures { 0 < end → result < end }
    {
        if end == 0 {
            return 0;
        }
        let high = self.next() >> 32;
        (high % u64::from(end)) as u32
    }

    /// Yes once in `many` times.
    pub fn once_in(&mut self, many: u32) -> bool {
        self.below(many) == 0
    }
}
