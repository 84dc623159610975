// Lends the seats of a board to workers, and collects the entries that the workers bring back.
ghost use Rattle.std.specs.Prelude.{◌≡◌, length, vec_len, All, IfOk, IsOk, OnOk, IfSome};
ghost use Rattle.shop_runs.specs.{Entries.told, Hits.hits_of_round};
ghost use Rattle.shop_workers.specs.inner.{Gathered.{HasFilled, AreByPiece}, Returns.AreReturned, Turns.IsRestKnown};
ghost use Rattle.shop_workers.specs.Seats.{knows, hits_of, IsSeatOf};

use crate::boards::{Board, Seat};
use crate::ordering::{none_by_piece, put_each};
use shop_runs::{Entry, Round};
use std::alloc::{AllocError as NoMemory, Global};

/// A worker's number, and the seat that the worker borrows.
#[derive(Drop)]
pub struct Lent {
    pub worker: usize,
    pub seat: Seat,
}

/// What a worker brings back: its seat, and its entries or `NoMemory`.
#[derive(Drop)]
pub struct Returned<'r> {
    pub seat: Seat,
    pub entries: Result<Vec<Entry<'r>>, NoMemory>,
}

/// Splits `seat` into one seat for each of `workers` workers. Worker 0 comes last in the list, and gets a seat even if
/// `workers` is 0. Fails with `NoMemory` if memory runs out.
pub fn seats_for_workers(
    alloc: Global,
    board: &Board,
    seat: Seat,
    workers: usize,
) -> Result<Vec<Lent>, NoMemory>
    requires { IsSeatOf board.now seat }
    ensures { IfOk result (λ v. All (λ l. IsSeatOf board.now l.seat) v.items) }
{
    let mut lent = Vec::with_capacity(alloc, workers)?;
    let mut mine = seat;
    for worker in 1..workers {
        let (kept, seat) = board.split(mine);
        mine = kept;
        lent.push(Lent { worker, seat })?;
    }
    lent.push(Lent {
        worker: 0,
        seat: mine,
    })?;
    Ok(lent)
}

/// Joins the workers' seats, and puts their entries at the numbers of their pieces. Fails with `NoMemory` if memory
/// runs out, here or for a worker.
fn join_all<'r>(
    alloc: Global,
    board: &Board,
    round: &'r Round<'r>,
    mut returned: Vec<Returned<'r>>,
) -> Result<(Option<Seat>, Vec<Option<Entry<'r>>>), NoMemory>
    requires { AreReturned board.now (told round.now) returned.items }
    ensures granted { OnOk result (All (λ w. IsOk w.entries) returned.entry.items) }
    ensures filled { IfOk result (λ p. All (λ w. HasFilled p.1.items w.entries) returned.entry.items) }
    ensures seat { IfOk result (λ p. IfSome p.0 (IsSeatOf board.now)) }
    ensures len { IfOk result (λ p. vec_len p.1 ≡ length round.now.pieces.items) }
    ensures by_piece { IfOk result (λ p. AreByPiece (told round.now) p.1.items) }
{
    let mut by_piece = none_by_piece(alloc, round)?;
    let mut joined = None;
    while let Some(Returned { seat, entries }) = returned.pop() {
        joined = match joined {
            Some(mine) => Some(board.join(mine, seat)),
            None => Some(seat),
        };
        put_each(round, &mut by_piece, entries?);
    }
    Ok((joined, by_piece))
}

/// Claims each piece that has no entry in `by_piece`, as no worker brought one.
fn claim_rest(board: &Board, seat: &mut Seat, by_piece: &[Option<Entry>])
    requires seat { IsSeatOf board.now seat.old }
    requires by_piece { length by_piece.now ≡ length (hits_of board.now) }
    ensures seat { IsSeatOf board.now seat.new }
    ensures claimed { IsRestKnown (length by_piece.now) (knows seat.new) by_piece.now }
{
    for number in 0..by_piece.len() {
        if by_piece[number].is_none() {
            board.claim(seat, number);
        }
    }
}

/// Puts each entry that a worker brought into a vector, at the number of its piece, and claims each piece of `round`
/// that has no entry there, as no worker brought one. Fails with `NoMemory` if memory runs out, here or for a worker.
pub fn put_returned<'r>(
    alloc: Global,
    board: &Board,
    round: &'r Round<'r>,
    returned: Vec<Returned<'r>>,
) -> Result<Vec<Option<Entry<'r>>>, NoMemory>
    requires round { hits_of board.now ≡ hits_of_round round.now }
    requires returned { AreReturned board.now (told round.now) returned.items }
    ensures granted { OnOk result (All (λ w. IsOk w.entries) returned.entry.items) }
    ensures filled { IfOk result (λ v. All (λ w. HasFilled v.items w.entries) returned.entry.items) }
    ensures len { IfOk result (λ v. vec_len v ≡ length round.now.pieces.items) }
    ensures by_piece { IfOk result (λ v. AreByPiece (told round.now) v.items) }
{
    let (joined, by_piece) = join_all(alloc, board, round, returned)?;
    if let Some(mut seat) = joined {
        claim_rest(board, &mut seat, &by_piece);
    }
    Ok(by_piece)
}
