// The random numbers that instances and schedules are made of.
ghost use Rattle.std.specs.Prelude.{◌<◌};

use std::alloc::{AllocError, Global};

/// Knuth's linear congruential generator of 64 bits.
#[derive(Drop)]
pub struct Numbers {
    state: u64,
}

impl Numbers {
    pub fn new(seed: u64) -> Numbers {
        Numbers { state: seed }
    }

    /// Returns the next number below `limit`.
    pub fn below(&mut self, limit: usize) -> usize
        requires { 0 < limit }
        ensures { result < limit }
    {
        self.state = self
            .state
            .wrapping_mul(6_364_136_223_846_793_005)
            .wrapping_add(1_442_695_040_888_963_407);
        (self.state >> 33) as usize % limit
    }

    /// Returns the numbers below `count` in a random order, by the shuffle of Fisher and Yates. Fails with `AllocError`
    /// if memory runs out.
    pub fn shuffled(&mut self, alloc: Global, count: usize) -> Result<Vec<usize>, AllocError> {
        let mut values = Vec::with_capacity(alloc, count)?;
        for value in 0..count {
            values.push(value)?;
            let last = values.len() - 1;
            let place = self.below(values.len());
            values.swap(place, last);
        }
        Ok(values)
    }
}
