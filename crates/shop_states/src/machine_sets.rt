// Sets of machines, one bit a machine.
ghost use Rattle.std.specs.Prelude.{◌≡◌, ◌<◌, ◌++◌, ◌^◌, ℕ, List, [], IsTrue};
ghost use Rattle.shop_lanes.specs.{Marks.IsPopped, SetBits.set_bits};
ghost use Rattle.shop_states.specs.inner.JobSets.{HasPut};

use std::marker::Model;

/// A set of machines below 128. Its value in contracts is the ascending list of its machines.
#[derive(Drop)]
pub struct MachineSet {
    low: u64,
    high: u64,
}

impl Model for MachineSet {
    ghost Value = { List ℕ };

    ghost view = { λ s. set_bits 64 0 s.low ++ set_bits 64 64 s.high };

    ghost invariant = { λ s. (s.low < 2 ^ 64) × (s.high < 2 ^ 64) };
}

impl MachineSet {
    /// Makes the empty set.
    #[inline(always)]
    pub(crate) fn none() -> MachineSet
        ensures { result ≡ [] }
    {
        MachineSet { low: 0, high: 0 }
    }

    /// Puts a machine into the set. A literal `are_few`, true where all machines are below 64, spares a test.
    #[inline(always)]
    pub(crate) fn put(&mut self, machine: u32, are_few: bool)
        requires known { machine < 128 }
        requires few { IsTrue are_few → machine < 64 }
        ensures { HasPut machine self.old self.new }
    {
        if are_few || machine < 64 {
            self.low |= 1 << machine;
            return;
        }
        self.high |= 1 << (machine - 64);
    }

    /// Takes the lowest machine out of the set.
    #[inline(always)]
    pub(crate) fn pop_first(&mut self) -> Option<usize>
        ensures { IsPopped self.old result self.new }
    {
        if self.low > 0 {
            let machine = self.low.trailing_zeros();
            self.low &= self.low - 1;
            return Some(machine as usize);
        }
        if self.high == 0 {
            return None;
        }
        let behind = self.high.trailing_zeros();
        self.high &= self.high - 1;
        Some(64 + behind as usize)
    }
}
