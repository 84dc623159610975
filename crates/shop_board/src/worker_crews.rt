// The crew that the program makes for a number of workers.
ghost use Rattle.std.specs.{Prelude.◌≡◌, Thread.IsSync};
ghost use Rattle.shop_board.specs.Crews.{workers_of};

use crate::board_crews::BoardCrew;
use shop_round::Alone;
use shop_runs::{Crew, Entry, MakesCrew, Round, Workers};
use shop_workers::OpenGate;
use std::alloc::{AllocError as NoMemory, Global};
use std::thread::Threads;

/// The crew for a number of workers: one searches on the calling thread alone; several claim pieces on a board.
#[derive(Drop)]
pub enum WorkerCrew {
    One(Alone),
    Several(BoardCrew<OpenGate>),
}

impl<R: Threads + Sync> Crew<R> for WorkerCrew {
    ghost ready = { IsSync R.row };

    fn search<'r>(
        &mut self,
        rt: &R,
        alloc: Global,
        round: &'r Round<'r>,
    ) -> Result<Vec<Entry<'r>>, NoMemory> {
        match self {
            WorkerCrew::One(alone) => alone.search_round(alloc, round),
            WorkerCrew::Several(crew) => crew.search(rt, alloc, round),
        }
    }
}

/// Makes the `WorkerCrew` for a number of workers.
#[derive(Clone, Copy)]
pub struct ByWorkers;

impl<R: Threads + Sync> MakesCrew<R> for ByWorkers {
    type Crew = WorkerCrew;

    fn of(&self, workers: Workers) -> WorkerCrew
        ensures { workers_of result ≡ workers.count }
    {
        if workers.count == 1 {
            WorkerCrew::One(Alone)
        } else {
            WorkerCrew::Several(BoardCrew::of(workers, OpenGate))
        }
    }
}
