// A crew whose workers claim pieces on a board.
ghost use Rattle.std.specs.{Thread.IsSync, Prelude.{◌≡◌, ◌<◌, ◌≤◌, ◌↔◌, IsSome, IfSome, IfOk}};
ghost use Rattle.shop_runs.specs.{declared.plans.TheConstants.MAX_WORKERS, Entries.told, Crews.OneForEach};

use crate::board_search::search_claimed;
use shop_runs::{Crew, Entry, Round, Workers};
use shop_workers::{OpenGate, SeatGate};
use std::alloc::{AllocError as NoMemory, Global};
use std::thread::Threads;

/// A crew whose workers claim pieces on a board, and call its gate before they search a piece that they won. Each has a
/// thread of its own where one can start, and a lone worker is the calling thread. A search waits for its workers, and
/// joins all of them before it returns.
#[derive(Drop)]
pub struct BoardCrew<G> {
    workers: Workers,
    gate: G,
}

impl<G: Drop> BoardCrew<G> {
    /// Makes a crew of `workers` workers, which call `gate`, or returns `None` if `workers` isn't 1 to 64.
    pub fn new(workers: usize, gate: G) -> Option<BoardCrew<G>>
        ensures within { IsSome result ↔ ((0 < workers) × (workers ≤ MAX_WORKERS)) }
        ensures keeps { IfSome result (λ c. (c.workers.count ≡ workers) × (c.gate ≡ gate)) }
    {
        let workers = Workers::new(workers)?;
        Some(BoardCrew::of(workers, gate))
    }
}

impl<G> BoardCrew<G> {
    /// Makes a crew of `workers.count` workers, which call `gate`.
    pub fn of(workers: Workers, gate: G) -> BoardCrew<G>
        ensures count { result.workers.count ≡ workers.count }
        ensures gate { result.gate ≡ gate }
    {
        BoardCrew { workers, gate }
    }

    /// Returns a reference to the gate, for reading what it recorded. For library callers: the program doesn't use
    /// `gate`.
    pub fn gate(&self) -> &G
        ensures { result.now ≡ self.now.gate }
    {
        &self.gate
    }
}

impl<G: SeatGate + Sync> BoardCrew<G> {
    /// Does what `Crew::search` does, for a crew with a gate of any type: returns one entry for each piece of `round`,
    /// in number order. Uses all workers of the crew, or one for each piece if these are fewer; `Crew::search` may use
    /// fewer, since it counts what a thread costs. Fails with `NoMemory` if memory runs out. Joins all workers before
    /// it returns or fails.
    pub fn search_round<'r, R: Threads + Sync>(
        &self,
        rt: &R,
        alloc: Global,
        round: &'r Round<'r>,
    ) -> Result<Vec<Entry<'r>>, NoMemory>
        ensures { IfOk result (λ v. OneForEach (told round.now) v.items) }
    {
        search_claimed(rt, alloc, round, self.workers.count, &self.gate)
    }
}

/// The work that a round has to hold for each further worker: nodes times operations of the instance.
const WORK_OF_A_WORKER: u64 = 64_000;

/// Returns how many of `workers` workers are worth their threads in `round`. To start a thread and wait for its end
/// takes some 50 microseconds. In a piece of small budget a node takes a few nanoseconds for each operation of the
/// instance, since the search first fills a state with all operations.
fn worth_starting(round: &Round, workers: usize) -> usize
    ensures { result ≤ workers }
{
    let nodes = round.budget * round.pieces.len() as u64;
    let work = nodes * round.instance.operations() as u64;
    let others = (work / WORK_OF_A_WORKER) as usize;
    workers.min(others + 1)
}

impl<R: Threads + Sync> Crew<R> for BoardCrew<OpenGate> {
    ghost ready = { IsSync R.row };

    fn search<'r>(
        &mut self,
        rt: &R,
        alloc: Global,
        round: &'r Round<'r>,
    ) -> Result<Vec<Entry<'r>>, NoMemory> {
        let workers = worth_starting(round, self.workers.count);
        search_claimed(rt, alloc, round, workers, &self.gate)
    }
}
