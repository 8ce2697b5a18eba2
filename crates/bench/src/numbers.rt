//! Numbers that are the same in each run, and in the Rust program beside this one.

/// A linear congruential generator with the constants of Knuth's MMIX.
#[derive(Debug, Drop)]
pub struct Numbers {
    state: u64,
}

impl Numbers {
    /// The numbers of one seed.
    pub fn new(seed: u64) -> Numbers {
        Numbers { state: seed }
    }

    /// The next number, of 31 bits: the low bits of the state repeat too soon.
    pub fn next(&mut self) -> u32 {
        self.state = self
            .state
            .wrapping_mul(6364136223846793005)
            .wrapping_add(1442695040888963407);
        (self.state >> 33) as u32
    }
}
