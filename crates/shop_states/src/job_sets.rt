// Sets of jobs, one bit a job.
ghost use Rattle.std.specs.Prelude.{◌≡◌, ℕ, ◌*◌, ◌/◌, ◌<◌, List, [], length};
ghost use Rattle.shop_states.specs.inner.{JobSets.{members, HasPut}, RisingLists.Rises};

use std::marker::Model;

/// The number of jobs in each number of a set, one bit a job.
pub(crate) const JOBS_PER_NUMBER: usize = 64;

/// A set of jobs below 64 * `NUMBERS`. Its value in contracts is the ascending list of its jobs.
#[derive(Drop)]
pub(crate) struct JobSet<const NUMBERS: usize> {
    numbers: [u64; NUMBERS],
}

impl<const NUMBERS: usize> Model for JobSet<NUMBERS> {
    ghost Value = { List ℕ };

    ghost view = { λ s. members 0 s.numbers };

    ghost invariant = { λ s. length s.numbers ≡ NUMBERS };
}

impl<const NUMBERS: usize> JobSet<NUMBERS> {
    /// Makes the empty set.
    #[inline(always)]
    pub(crate) fn new() -> Self
        ensures { result ≡ [] }
    {
        JobSet {
            numbers: [0; NUMBERS],
        }
    }

    /// Puts a job into the set.
    #[inline(always)]
    #[tactic(auto, using(crate::proofs::JobSets::put_in))]
    pub(crate) fn put(&mut self, job: usize)
        requires { job < 64 * NUMBERS }
        ensures { HasPut job self.old self.new }
    {
        // a set of one number needs no division
        let index = if NUMBERS == 1 {
            0
        } else {
            job / JOBS_PER_NUMBER
        };
        self.numbers[index] |= 1 << (job % JOBS_PER_NUMBER);
    }

    /// Returns the set as bits, 64 jobs to each number, lowest job first.
    #[inline(always)]
    pub(crate) fn numbers(&self) -> &[u64]
        ensures members { members 0 result.now ≡ self.now }
        ensures many { length result.now ≡ NUMBERS }
    {
        &self.numbers
    }

    /// Proves that the value of a set lists its jobs in ascending order. Does nothing when called.
    #[inline(always)]
    pub(crate) fn rises(&self)
        ensures { Rises self.now }
    {
        let _ = &self.numbers;
    }
}
