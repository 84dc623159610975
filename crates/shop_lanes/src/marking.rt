// A set of marked positions, one bit for each.
ghost use Rattle.std.specs.Prelude.{◌≡◌, ℕ, ◌<◌, ◌+◌, ◌≤◌, ◌↔◌, ◌^◌, List, [], IsTrue, All};
ghost use Rattle.shop_lanes.specs.{Marks.{IsPopped, without}, SetBits.set_bits};

use std::marker::Model;

/// 64 neighbouring positions, from `first` on, of which some are marked. Contracts see the marked positions, in order.
#[derive(Drop)]
pub struct Marks {
    first: usize,
    bits: u64,
}

impl Model for Marks {
    ghost Value = { List ℕ };

    ghost view = { λ m. set_bits 64 m.first m.bits };

    ghost invariant = { λ m. (m.first + 64 ≤ 2 ^ 64) × (m.bits < 2 ^ 64) };
}

impl Marks {
    /// Marks position `first` + i for each set bit i of `bits`.
    #[inline(always)]
    pub fn new(first: usize, bits: u64) -> Self
        requires { first + 64 ≤ 2 ^ 64 }
        ensures { result ≡ set_bits 64 first bits }
    {
        Marks { first, bits }
    }

    /// Returns whether no position is marked.
    #[inline(always)]
    pub fn is_empty(&self) -> bool
        ensures { IsTrue result ↔ (self.now ≡ []) }
    {
        self.bits == 0
    }

    /// Returns whether every marked position is `position`; true if no position is marked.
    #[inline(always)]
    pub fn has_no_other(&self, position: usize) -> bool
        ensures { IsTrue result → All (λ p. p ≡ position) self.now }
    {
        let mut others = Marks {
            first: self.first,
            bits: self.bits,
        };
        match others.pop_first() {
            Some(first) => first == position && others.is_empty(),
            None => true,
        }
    }

    /// Unmarks `position`, if it is marked. `position` need not be one of the 64 positions.
    #[inline(always)]
    pub fn unmark(&mut self, position: usize)
        ensures { self.new ≡ without position self.old }
    {
        let index = position.wrapping_sub(self.first);
        if index < 64 {
            self.bits &= !(1 << index);
        }
    }

    /// Unmarks the first marked position and returns it; `None` if no position is marked.
    #[inline(always)]
    pub fn pop_first(&mut self) -> Option<usize>
        ensures { IsPopped self.old result self.new }
    {
        if self.bits == 0 {
            return None;
        }
        let next = self.bits.trailing_zeros();
        self.bits &= self.bits - 1;
        Some(self.first + next as usize)
    }
}
