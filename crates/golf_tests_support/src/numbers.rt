//! Pseudo-random numbers.
//!
//! The same seed gives the same numbers on each machine.

/// A linear congruential generator. The same seed gives the same numbers.
#[derive(Debug, Drop)]
pub struct Numbers {
    state: u64,
}

impl Numbers {
    /// Returns the generator of this seed.
    pub fn new(seed: u64) -> Numbers {
        Numbers { state: seed }
    }

    /// Returns the next number, which is below the bound. It is 0 if the bound is 0.
    pub fn below(&mut self, bound: u32) -> u32 {
        self.state = self
            .state
            .wrapping_mul(6364136223846793005)
            .wrapping_add(1442695040888963407);
        let high = (self.state >> 33) as u32;
        if bound == 0 { 0 } else { high % bound }
    }
}
