// A crew whose workers take piece numbers from one locked pool.
ghost use Rattle.std.specs.{Thread.IsSync, Prelude.{◌≡◌, ◌<◌, ◌≤◌, ◌↔◌, IsSome, IfSome, IfOk}};
ghost use Rattle.shop_runs.specs.{declared.plans.TheConstants.MAX_WORKERS, Entries.told, Crews.OneForEach};
ghost use Rattle.shop_workers.specs.Entries.{OfRound};

use crate::completing::complete_round;
use shop_round::PieceSearcher;
use shop_runs::{Crew, Entry, Round, Workers};
use shop_workers::{Gate, OpenGate, Pool, put_all, search_pool};
use std::alloc::{AllocError as NoMemory, Global};
use std::sync::{Mutex, Wait};
use std::thread;
use std::thread::Threads;

/// A crew whose workers take piece numbers from one locked pool. Worker 0 is the calling thread. A search may wait for
/// the other workers, and joins all of them before it returns. For library callers: the program doesn't use `LockCrew`.
#[derive(Drop)]
pub struct LockCrew<G> {
    workers: Workers,
    gate: G,
}

impl<G: Drop> LockCrew<G> {
    /// Makes a crew of `workers` workers, which call `gate`, or returns `None` if `workers` isn't 1 to 64.
    pub fn new(workers: usize, gate: G) -> Option<LockCrew<G>>
        ensures within { IsSome result ↔ ((0 < workers) × (workers ≤ MAX_WORKERS)) }
        ensures keeps { IfSome result (λ c. (c.workers.count ≡ workers) × (c.gate ≡ gate)) }
    {
        let workers = Workers::new(workers)?;
        Some(LockCrew { workers, gate })
    }
}

impl<G> LockCrew<G> {
    /// Returns a reference to the gate, for reading what it recorded.
    pub fn gate(&self) -> &G
        ensures { result.now ≡ self.now.gate }
    {
        &self.gate
    }
}

impl<G: Gate + Sync> LockCrew<G> {
    /// Does what `Crew::search` does, for a crew with a gate of any type: returns one entry for each piece of `round`,
    /// in number order. Uses at most one worker for each piece. If a thread can't start, the other threads do its work.
    /// Fails with `NoMemory` if memory runs out. Joins all workers before it returns or fails.
    pub fn search_round<'r, R: Threads + Wait + Sync>(
        &self,
        rt: &R,
        alloc: Global,
        round: &'r Round<'r>,
    ) -> Result<Vec<Entry<'r>>, NoMemory>
        ensures { IfOk result (λ v. OneForEach (told round.now) v.items) }
    {
        let pieces = round.pieces.len();
        let pool = Mutex::new(Pool::open(pieces));
        let (lock, gate) = (&pool, &self.gate);
        let count = self.workers.count.min(pieces);
        // `map_indices` runs the last index on the calling thread, which is thus worker 0.
        let lists = thread::map_indices(
            rt,
            alloc,
            count,
            &|index: usize|
                requires { index < count }
                ensures { IfOk result (λ v. OfRound (told round.entry.now) v.items) }
            {
                let mut searcher = PieceSearcher::over(round);
                search_pool(rt, alloc, &mut searcher, lock, gate, count - 1 - index)
            },
        )?;
        complete_round(alloc, round, put_all(alloc, round, lists)?)
    }
}

impl<R: Threads + Wait + Sync> Crew<R> for LockCrew<OpenGate> {
    ghost ready = { IsSync R.row };

    fn search<'r>(
        &mut self,
        rt: &R,
        alloc: Global,
        round: &'r Round<'r>,
    ) -> Result<Vec<Entry<'r>>, NoMemory> {
        self.search_round(rt, alloc, round)
    }
}
