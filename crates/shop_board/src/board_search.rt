// Searches a round by workers that claim its pieces on a board.
ghost use Rattle.std.specs.Prelude.{◌≡◌, length, vec_len, All, IfOk, OnOk};
ghost use Rattle.shop_runs.specs.{Entries.told, Crews.OneForEach, Hits.hits_of_round};
ghost use Rattle.shop_workers.specs.{Views.HasHandled, Seats.{knows, hits_of, IsSeatOf}};
ghost use Rattle.shop_workers.specs.{Works.{Grows, IsAllKnown, BringsWon}, inner.Returns.{IsReturned, AreReturned}};

use crate::completing::complete_round;
use crate::on_threads::map_on_threads;
use shop_round::PieceSearcher;
use shop_runs::{Entry, Round};
use shop_workers::{
    Board, Lent, Returned, Seat, SeatGate, claim_and_search_all, put_returned, seats_for_workers,
};
use std::alloc::{AllocError as NoMemory, Global};
use std::thread::Threads;

/// Claims each piece of the board in order. Searches a piece that the seat wins, or passes it if the makespan of an
/// earlier one is known to equal the opening bound. Returns the seat, which keeps all that it knew, and the entries of
/// the pieces that it won in this call, in number order, or `NoMemory` if memory runs out. Waits only for the gate.
pub fn work<'r, G: SeatGate>(
    alloc: Global,
    board: &Board,
    seat: Seat,
    round: &'r Round<'r>,
    worker: usize,
    gate: &G,
) -> (Seat, Result<Vec<Entry<'r>>, NoMemory>)
    requires seat { IsSeatOf board.now seat }
    requires round { hits_of board.now ≡ hits_of_round round.now }
    ensures seat { IsSeatOf board.now result.0 }
    ensures grows { Grows (knows seat) (knows result.0) }
    ensures claimed { OnOk result.1 (IsAllKnown (length round.now.pieces.items) (knows result.0)) }
    ensures entries { BringsWon (told round.now) (knows seat) (knows result.0) result.1 }
    ensures handled { OnOk result.1 (HasHandled (knows seat) → HasHandled (knows result.0)) }
{
    let mut seat = seat;
    let mut searcher = PieceSearcher::over(round);
    let entries = claim_and_search_all(alloc, board, &mut seat, &mut searcher, worker, gate);
    (seat, entries)
}

/// Runs each worker in `lent` on a thread of its own if one can start, and a lone worker on the calling thread.
fn work_all<'r, R: Threads + Sync, G: SeatGate + Sync>(
    rt: &R,
    alloc: Global,
    board: &Board,
    lent: Vec<Lent>,
    round: &'r Round<'r>,
    gate: &G,
) -> Result<Vec<Returned<'r>>, NoMemory>
    requires seats { All (λ l. IsSeatOf board.now l.seat) lent.items }
    requires round { hits_of board.now ≡ hits_of_round round.now }
    ensures len { IfOk result (λ v. vec_len v ≡ vec_len lent) }
    ensures each { IfOk result (λ v. AreReturned board.now (told round.now) v.items) }
{
    let worker = move |lent: Lent| -> Returned
        requires { IsSeatOf board.now lent.seat × (hits_of board.now ≡ hits_of_round round.now) }
        ensures { IsReturned board.entry.now (told round.entry.now) result.seat result.entries }
    {
        let (seat, entries) = work(alloc, board, lent.seat, round, lent.worker, gate);
        Returned { seat, entries }
    };
    map_on_threads(rt, alloc, lent, &worker)
}

/// Searches `round` by `workers` workers (fewer if it has fewer pieces) that claim its pieces on a board. Returns one
/// entry for each piece, in number order. Each worker has a thread of its own, for which the calling thread waits; a
/// lone worker, and one whose thread can't start, works on the calling thread. The calling thread also claims and
/// searches each piece for which no worker brought an entry. Fails with `NoMemory` if memory runs out.
pub fn search_claimed<'r, R: Threads + Sync, G: SeatGate + Sync>(
    rt: &R,
    alloc: Global,
    round: &'r Round<'r>,
    workers: usize,
    gate: &G,
) -> Result<Vec<Entry<'r>>, NoMemory>
    ensures { IfOk result (λ v. OneForEach (told round.now) v.items) }
{
    let (board, seat) = Board::open(alloc, round)?;
    let lent = seats_for_workers(alloc, &board, seat, workers.min(round.pieces.len()))?;
    let returned = work_all(rt, alloc, &board, lent, round, gate)?;
    complete_round(alloc, round, put_returned(alloc, &board, round, returned)?)
}
