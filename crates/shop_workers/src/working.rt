// A worker that claims pieces on a board and searches those that it wins.
ghost use Rattle.std.specs.Prelude.{◌≡◌, ◌<◌, length, IfOk, OnOk};
ghost use Rattle.shop_runs.specs.{Entries.told, Hits.hits_of_round};
ghost use Rattle.shop_workers.specs.{Views.HasHandled, Seats.{knows, hits_of, IsSeatOf}, inner.Turns.TakesTurn};
ghost use Rattle.shop_workers.specs.Works.{Grows, IsKnown, IsAllKnown, BringsWon};

use crate::boards::{Board, Seat};
use crate::gates::SeatGate;
use shop_runs::{Entry, PieceSearch};
use std::alloc::{AllocError as NoMemory, Global};

/// Reads the least number of a marked piece, then claims piece `number`. If the seat wins piece `number`, passes it if
/// the number read is lower; else searches it, and marks it if its makespan equals the opening bound. Returns the entry
/// of piece `number`, or `None` if the seat didn't win it.
fn claim_and_search<'r, P: PieceSearch<'r>, G: SeatGate>(
    alloc: Global,
    board: &Board,
    seat: &mut Seat,
    searcher: &mut P,
    number: usize,
    worker: usize,
    gate: &G,
) -> Result<Option<Entry<'r>>, NoMemory>
    requires seat { IsSeatOf board.now seat.old }
    requires round { hits_of board.now ≡ hits_of_round (P.searched searcher.old) }
    requires piece { number < length (P.searched searcher.old).pieces.items }
    ensures seat { IsSeatOf board.now seat.new }
    ensures grows { Grows (knows seat.old) (knows seat.new) }
    ensures round { P.searched searcher.new ≡ P.searched searcher.old }
    ensures claimed { IsKnown (knows seat.new) number }
    ensures entry { IfOk result (TakesTurn (told (P.searched searcher.old)) number (knows seat.old) (knows seat.new)) }
{
    let low = board.look(seat);
    if !board.claim(seat, number) {
        return Ok(None);
    }
    if low < number {
        return Ok(Some(Entry::passed(searcher.round(), number, low)));
    }
    gate.won(worker, seat, number);
    let sheet = searcher.search(alloc, number)?;
    let round = searcher.round();
    if sheet.makespan == round.bound {
        board.mark(seat, number);
    }
    Ok(Some(Entry::done(round, sheet)))
}

/// Claims each piece of the board in order. Searches a piece that the seat wins, or passes it if the board shows an
/// earlier piece as marked. Marks a searched piece whose sheet's makespan equals the opening bound. Returns the entries
/// of the pieces that the seat won in this call, in number order. Fails with `NoMemory` if memory runs out; the seat
/// then keeps what it won. Waits only for the gate.
pub fn claim_and_search_all<'r, P: PieceSearch<'r>, G: SeatGate>(
    alloc: Global,
    board: &Board,
    seat: &mut Seat,
    searcher: &mut P,
    worker: usize,
    gate: &G,
) -> Result<Vec<Entry<'r>>, NoMemory>
    requires seat { IsSeatOf board.now seat.old }
    requires round { hits_of board.now ≡ hits_of_round (P.searched searcher.old) }
    ensures seat { IsSeatOf board.now seat.new }
    ensures grows { Grows (knows seat.old) (knows seat.new) }
    ensures round { P.searched searcher.new ≡ P.searched searcher.old }
    ensures claimed { OnOk result (IsAllKnown (length (P.searched searcher.old).pieces.items) (knows seat.new)) }
    ensures entries { BringsWon (told (P.searched searcher.old)) (knows seat.old) (knows seat.new) result }
    ensures handled { OnOk result (HasHandled (knows seat.old) → HasHandled (knows seat.new)) }
{
    let mut entries = Vec::new(alloc);
    for number in 0..searcher.round().pieces.len() {
        if let Some(entry) = claim_and_search(alloc, board, seat, searcher, number, worker, gate)? {
            entries.push(entry)?;
        }
    }
    Ok(entries)
}
