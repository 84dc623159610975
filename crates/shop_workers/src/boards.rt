// A board, on which threads claim the pieces of a round, and seats, the threads' handles on the board.
ghost use Rattle.std.specs.Prelude.{◌≡◌, ◌+◌, ◌≤◌, [], ◌∷◌, ◌++◌, replicate, length, true, IfOk};
ghost use Rattle.shop_workers.specs.Views.{once, ArePieces};

use crate::round_hits::RoundHits;
use crate::rules::{Claim, Law, Look, Mark, Recall, Share};
use crate::views::View;
use atomic_table::Table;
use shop_runs::Round;
use std::alloc::{AllocError as NoMemory, Global};

/// A board that threads share: a claim flag for each piece of a round, and the least number of a marked piece, whose
/// makespan equals the opening bound. Each change is one atomic step of a seat. No thread waits for another.
#[derive(Drop)]
pub struct Board<'r> {
    pub(crate) table: Table<(), View, RoundHits<'r>, Law, Global>,
    pub ghost words: { table.shared.table_id.words ≡ length table.shared.key + 1 },
    pub ghost no_slots: { table.shared.table_id.slots ≡ 0 },
}

/// A thread's handle on a board. It takes no bytes. For proofs, it lists the pieces that the thread won, each once.
#[derive(Drop)]
pub struct Seat {
    pub(crate) seat: atomic_table::Seat<(), View>,
    pub ghost holds_no_slot: { seat.me.1 ≡ [] },
    pub ghost live: { seat.me.0.live ≡ true },
    pub ghost once: { once seat.me.0.mine ≡ true },
    pub ghost pieces: { ArePieces seat.me.0.hits seat.me.0.mine },
}

/// Makes the numbers of a new board: a flag of 0 for each piece, and then `pieces`, which says that no piece is marked.
fn first_words(alloc: Global, pieces: usize) -> Result<Vec<u64>, NoMemory>
    requires { pieces ≤ 256 }
    ensures { IfOk result (λ v. v.items ≡ replicate pieces 0 ++ pieces ∷ []) }
{
    let mut words = Vec::with_capacity(alloc, pieces + 1)?;
    for _ in 0..pieces {
        words.push(0)?;
    }
    words.push(pieces as u64)?;
    Ok(words)
}

impl<'r> Board<'r> {
    ghost use Rattle.std.specs.Prelude.{◌<◌};
    ghost use Rattle.shop_runs.specs.Hits.{hits_of_round, is_hit_in, IsHitOrEnd, IsLeastHit};
    ghost use Rattle.shop_workers.specs.{Views.{has, HasHandled, HasAll}, Moves.{with_low, IsAtMostMarked, HasMarked}};
    ghost use Rattle.shop_workers.specs.Moves.{newcomer, empty_handed, joined, HaveWonApart, KeepsHandled, IsTold};
    ghost use Rattle.shop_workers.specs.{Seats.{knows, hits_of, IsSeatOf}, Winners.IsDecided};

    /// Makes the board of `round`, with no piece claimed or marked, and its first seat. Fails with `NoMemory` if memory
    /// runs out. No other call of a board takes memory.
    pub fn open(alloc: Global, round: &'r Round<'r>) -> Result<(Board<'r>, Seat), NoMemory>
        ensures hits { IfOk result (λ p. hits_of p.0 ≡ hits_of_round round.now) }
        ensures seat { IfOk result (λ p. IsSeatOf p.0 p.1) }
        ensures knows { IfOk result (λ p. knows p.1 ≡ newcomer (hits_of p.0)) }
        ensures handled { IfOk result (λ p. HasHandled (knows p.1)) }
    {
        let words = first_words(alloc, round.pieces.len())?;
        let (table, seat) = Table::of_words(alloc, &words, &RoundHits { round })?;
        Ok((Board { table }, Seat { seat }))
    }

    /// Returns how many pieces the round has.
    pub fn pieces(&self) -> usize
        ensures { result ≡ length (hits_of self.now) }
    {
        self.table.word_count() - 1
    }

    /// Splits `seat` in two. The first keeps all that `seat` knows; the second knows what `seat` has seen of the board,
    /// but has won no piece.
    pub fn split(&self, seat: Seat) -> (Seat, Seat)
        requires { IsSeatOf self.now seat }
        ensures first { IsSeatOf self.now result.0 × (knows result.0 ≡ knows seat) }
        ensures second { IsSeatOf self.now result.1 × (knows result.1 ≡ empty_handed (knows seat)) }
        ensures handled { HasHandled (knows result.1) }
    {
        let Seat { mut seat } = seat;
        let other = self.table.shared.split_seat::<Share>(&mut seat);
        (Seat { seat }, Seat { seat: other })
    }

    /// Joins two seats, which have won no piece in common, into one that knows all that the two knew.
    pub fn join(&self, seat: Seat, other: Seat) -> Seat
        requires first { IsSeatOf self.now seat }
        requires second { IsSeatOf self.now other }
        ensures seat { IsSeatOf self.now result }
        ensures knows { knows result ≡ joined (knows seat) (knows other) }
        ensures handled { KeepsHandled (knows seat) (knows other) (knows result) }
        ensures apart { HaveWonApart (knows seat) (knows other) }
    {
        let Seat { mut seat } = seat;
        let Seat { seat: other } = other;
        self.table.shared.join_seat::<Share>(&mut seat, other);
        self.table.shared.load::<Recall>(&mut seat, 0);
        Seat { seat }
    }

    /// Claims `piece` in one atomic step. Returns true if this seat wins the piece: no other seat has won it or ever
    /// will. Returns false if some seat won it before.
    pub fn claim(&self, seat: &mut Seat, piece: usize) -> bool
        requires seat { IsSeatOf self.now seat.old }
        requires piece { piece < length (hits_of self.now) }
        ensures seat { IsSeatOf self.now seat.new }
        ensures knows { IsTold result piece (knows seat.old) (knows seat.new) }
        ensures winner { IsDecided result (hits_of self.now) piece (knows seat.new) }
    {
        self.table.shared.swap::<Claim>(&mut seat.seat, piece, 1) == 0
    }

    /// Reads the least number of a marked piece, or the number of pieces if none is marked. The result is never above a
    /// number that this seat read or marked before.
    pub fn look(&self, seat: &mut Seat) -> usize
        requires { IsSeatOf self.now seat.old }
        ensures seat { IsSeatOf self.now seat.new }
        ensures knows { knows seat.new ≡ with_low (knows seat.old) result }
        ensures lower { result ≤ (knows seat.old).low }
        ensures marked { IsAtMostMarked (knows seat.old) result }
        ensures hit { IsHitOrEnd (hits_of self.now) result }
    {
        self.table
            .shared
            .load::<Look>(&mut seat.seat, self.pieces()) as usize
    }

    /// Marks `piece`, which this seat won, and whose sheet's makespan equals the opening bound.
    pub fn mark(&self, seat: &mut Seat, piece: usize)
        requires seat { IsSeatOf self.now seat.old }
        requires mine { has (knows seat.old).mine piece ≡ true }
        requires hit { is_hit_in (hits_of self.now) piece ≡ true }
        ensures seat { IsSeatOf self.now seat.new }
        ensures knows { HasMarked piece (knows seat.old) (knows seat.new) }
    {
        self.table
            .shared
            .fetch_min::<Mark>(&mut seat.seat, self.pieces(), piece as u64);
    }

    /// Returns the least number of a piece whose sheet's makespan equals the opening bound, or the number of pieces if
    /// there is none. `seat` must have won all pieces, and marked each such piece, except those above the least number
    /// that it read or marked. For library callers: the program doesn't use `close`.
    pub fn close(self, seat: Seat) -> usize
        requires seat { IsSeatOf self seat }
        requires all { HasAll (knows seat) }
        requires handled { HasHandled (knows seat) }
        ensures { IsLeastHit (hits_of self.entry) result }
    {
        let hit_word = self.pieces();
        let Board { table } = self;
        let Seat { seat } = seat;
        let closed = table.close_with(seat);
        let hit = closed.word(hit_word);
        closed.free();
        hit as usize
    }
}
