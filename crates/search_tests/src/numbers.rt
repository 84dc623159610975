// Random numbers, of which instances and schedules are made.
ghost use Rattle.std.specs.Prelude.{◌≤◌};

/// Pseudo-random numbers: a linear congruential generator with Knuth's multiplier.
#[derive(Drop)]
pub struct Numbers {
    pub state: u64,
}

impl Numbers {
    /// Returns the next number, from 0 up to `most`.
    pub fn up_to(&mut self, most: u32) -> u64
        ensures { result ≤ most }
    {
        self.state = self
            .state
            .wrapping_mul(6_364_136_223_846_793_005)
            .wrapping_add(1);
        (self.state >> 33) % (most as u64 + 1)
    }
}
