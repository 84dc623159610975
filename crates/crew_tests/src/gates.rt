// When gates are called: once for each piece that is searched, with its number, just before its search.
ghost use Rattle.std.specs.Prelude.{◌≡◌};

use crate::rounds::{RoundTest, in_second_round};
use shop_nodes::Sheet;
use shop_round::PieceSearcher;
use shop_runs::{PieceSearch, Round};
use shop_workers::{Board, Gate, Pool, Seat, SeatGate, claim_and_search_all, search_pool};
use std::alloc::{AllocError as NoMemory, Global};
use std::process::Abort;
use std::sync::atomic::{AtomicUsize, Ordering};
use std::sync::{Mutex, Wait};

/// The calls of a gate, in order: two digits for each, the worker, and the piece counted from 1.
#[derive(Drop)]
struct Calls {
    noted: AtomicUsize,
}

impl Calls {
    fn new() -> Calls {
        Calls {
            noted: AtomicUsize::new(0),
        }
    }

    fn note(&self, worker: usize, piece: usize) {
        let digits = worker.wrapping_mul(10).wrapping_add(piece).wrapping_add(1);
        let before = self.noted.load(Ordering::SeqCst).wrapping_mul(100);
        self.noted
            .store(before.wrapping_add(digits), Ordering::SeqCst);
    }

    fn noted(&self) -> usize {
        self.noted.load(Ordering::SeqCst)
    }
}

impl Gate for Calls {
    fn before(&self, worker: usize, piece: usize) {
        self.note(worker, piece);
    }
}

impl SeatGate for Calls {
    fn won(&self, worker: usize, _seat: &Seat, piece: usize) {
        self.note(worker, piece);
    }
}

/// A searcher that memory is refused at the first piece.
#[derive(Drop)]
pub struct Refused<'r> {
    round: &'r Round<'r>,
}

impl<'r> Refused<'r> {
    pub fn over(round: &'r Round<'r>) -> Refused<'r>
        ensures { result.round.now ≡ round.now }
    {
        Refused { round }
    }
}

impl<'r> PieceSearch<'r> for Refused<'r> {
    ghost searched = { λ s. s.round.now };

    fn round(&self) -> &'r Round<'r> {
        self.round
    }

    fn search(&mut self, _alloc: Global, _number: usize) -> Result<Sheet<'r>, NoMemory> {
        Err(NoMemory)
    }
}

/// A searcher that is refused memory if it searches a piece twice in a row. It makes a `PieceSearcher` for each search
/// and keeps none, so that code for any searcher is proved for this one without the six widths of lanes.
#[derive(Drop)]
pub struct Once<'r> {
    round: &'r Round<'r>,
    last: Option<usize>,
}

impl<'r> Once<'r> {
    pub fn over(round: &'r Round<'r>) -> Once<'r>
        ensures { result.round.now ≡ round.now }
    {
        Once { round, last: None }
    }
}

impl<'r> PieceSearch<'r> for Once<'r> {
    ghost searched = { λ s. s.round.now };

    fn round(&self) -> &'r Round<'r> {
        self.round
    }

    fn search(&mut self, alloc: Global, number: usize) -> Result<Sheet<'r>, NoMemory> {
        if self.last == Some(number) {
            return Err(NoMemory);
        }
        self.last = Some(number);
        PieceSearcher::over(self.round).search(alloc, number)
    }
}

/// The calls of worker 3 on a board, and whether it brought entries.
fn calls_on_board<'r, P: PieceSearch<'r>>(
    rt: &impl Abort,
    alloc: Global,
    searcher: &mut P,
) -> (usize, bool) {
    let gate = Calls::new();
    let (board, mut seat) = Board::open(alloc, searcher.round()).expect(rt, "memory");
    let entries = claim_and_search_all(alloc, &board, &mut seat, searcher, 3, &gate);
    (gate.noted(), entries.is_ok())
}

/// The calls of worker 3 on a pool, and whether it brought entries.
fn calls_on_pool<'r, P: PieceSearch<'r>, R: Wait>(
    rt: &R,
    alloc: Global,
    searcher: &mut P,
) -> (usize, bool) {
    let gate = Calls::new();
    let pool = Mutex::new(Pool::open(searcher.round().pieces.len()));
    let entries = search_pool(rt, alloc, searcher, &pool, &gate, 3);
    (gate.noted(), entries.is_ok())
}

struct Called;

impl<R: Abort + Wait> RoundTest<R> for Called {
    ghost ready = { Unit {0} };

    fn run<'r>(&self, rt: &R, alloc: Global, round: &'r Round<'r>) {
        let searched = (3132, true);
        let refused = (31, false);
        assert!(rt; calls_on_board(rt, alloc, &mut Once::over(round)) == searched);
        assert!(rt; calls_on_pool(rt, alloc, &mut Once::over(round)) == searched);
        assert!(rt; calls_on_board(rt, alloc, &mut Refused::over(round)) == refused);
        assert!(rt; calls_on_pool(rt, alloc, &mut Refused::over(round)) == refused);
    }
}

#[test]
fn a_gate_is_called_once_just_before_the_only_search_of_a_piece(rt: HostRuntime) {
    in_second_round(&rt, rt.alloc(), &Called);
}
