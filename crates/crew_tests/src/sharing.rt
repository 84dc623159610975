// Who is at work and how often a piece is searched, by either crew; and pieces that no worker brought.
ghost use Rattle.std.specs.Thread.{IsSync};

use crate::gates::{Once, Refused};
use crate::instances::{FT06, instance_of};
use crate::rounds::{RoundTest, after_round, in_third_round, next_round};
use crate::telling::{assert_entries, assert_number};
use shop_board::{BoardCrew, LockCrew, work};
use shop_runs::{Plan, Round, Standing};
use shop_workers::{
    Board, Gate, OpenGate, Pool, Returned, Seat, SeatGate, complete, put_all, put_returned,
    search_pool,
};
use std::alloc::Global;
use std::process::Abort;
use std::sync::atomic::{AtomicUsize, Ordering};
use std::sync::{Mutex, Wait};
use std::thread;
use std::thread::Threads;

/// Counts the searches of each piece, and holds each worker at its first one until all workers are there, for
/// 10,000,000 turns at most. `met` counts the workers that saw all others there.
#[derive(Drop)]
struct Counting {
    searches: Vec<AtomicUsize>,
    first_calls: Vec<AtomicUsize>,
    there: AtomicUsize,
    met: AtomicUsize,
}

fn zeros(rt: &impl Abort, alloc: Global, count: usize) -> Vec<AtomicUsize> {
    let mut numbers = Vec::new(alloc);
    for _ in 0..count {
        numbers.push(AtomicUsize::new(0)).expect(rt, "memory");
    }
    numbers
}

impl Counting {
    fn new(rt: &impl Abort, alloc: Global, workers: usize, pieces: usize) -> Counting {
        Counting {
            searches: zeros(rt, alloc, pieces),
            first_calls: zeros(rt, alloc, workers),
            there: AtomicUsize::new(0),
            met: AtomicUsize::new(0),
        }
    }

    fn wait_for_all(&self) {
        for _ in 0..10_000_000 {
            if self.there.load(Ordering::SeqCst) >= self.first_calls.len() {
                self.met.fetch_add(1, Ordering::SeqCst);
                return;
            }
            thread::yield_now();
        }
    }

    fn note(&self, worker: usize, piece: usize) {
        if let Some(searches) = self.searches.get(piece) {
            searches.fetch_add(1, Ordering::SeqCst);
        }
        let Some(calls) = self.first_calls.get(worker) else {
            return;
        };
        if calls.swap(1, Ordering::SeqCst) == 0 {
            self.there.fetch_add(1, Ordering::SeqCst);
            self.wait_for_all();
        }
    }

    fn assert_shared(&self, rt: &impl Abort) {
        for searches in &self.searches {
            assert_number(rt, searches.load(Ordering::SeqCst), 1);
        }
        assert_number(rt, self.met.load(Ordering::SeqCst), self.first_calls.len());
    }
}

impl Gate for Counting {
    fn before(&self, worker: usize, piece: usize) {
        self.note(worker, piece);
    }
}

impl SeatGate for Counting {
    fn won(&self, worker: usize, _seat: &Seat, piece: usize) {
        self.note(worker, piece);
    }
}

/// A number of workers that share a round of at least as many pieces, none of which ends at the opening bound.
#[derive(Drop)]
struct Shared {
    workers: usize,
}

impl<R: Abort + Threads + Wait + Sync> RoundTest<R> for Shared {
    ghost ready = { IsSync R.row };

    fn run<'r>(&self, rt: &R, alloc: Global, round: &'r Round<'r>) {
        let pieces = round.pieces.len();
        assert!(rt; self.workers <= pieces);
        let gate = Counting::new(rt, alloc, self.workers, pieces);
        let lock = LockCrew::new(self.workers, gate).expect(rt, "workers");
        let entries = lock.search_round(rt, alloc, round).expect(rt, "memory");
        assert_number(rt, entries.len(), pieces);
        lock.gate().assert_shared(rt);
        let gate = Counting::new(rt, alloc, self.workers, pieces);
        let board = BoardCrew::new(self.workers, gate).expect(rt, "workers");
        let entries = board.search_round(rt, alloc, round).expect(rt, "memory");
        assert_number(rt, entries.len(), pieces);
        board.gate().assert_shared(rt);
    }
}

/// Lends the second round of `FT06` to a test. No schedule ends before 55, so none at its opening bound.
fn in_many_pieces<R: Abort, T: RoundTest<R>>(rt: &R, alloc: Global, test: &T)
    requires { T.ready }
{
    let instance = instance_of(rt, alloc, FT06);
    let plan = Plan::new(2, 20, 1).expect(rt, "a plan");
    let start = Standing::start(alloc, &instance).expect(rt, "memory");
    let first = after_round(rt, alloc, &instance, &plan, start);
    let round = next_round(rt, alloc, &instance, &plan, first);
    assert!(rt; round.bound < 55);
    test.run(rt, alloc, &round);
}

#[test]
fn all_workers_begin_and_each_piece_is_searched_once(rt: HostRuntime) {
    for workers in [1, 2, 3, 8] {
        in_many_pieces(&rt, rt.alloc(), &Shared { workers });
    }
}

/// Pieces that no worker brought, here all of the third round, are claimed and searched.
struct NothingBrought;

impl<R: Abort> RoundTest<R> for NothingBrought {
    ghost ready = { Unit {0} };

    fn run<'r>(&self, rt: &R, alloc: Global, round: &'r Round<'r>) {
        let (board, seat) = Board::open(alloc, round).expect(rt, "memory");
        assert_number(rt, board.pieces(), 3);
        let (seat, mut other) = board.split(seat);
        let entries = Ok(Vec::new(alloc));
        let returned = vec![in alloc; Returned { seat, entries }].expect(rt, "memory");
        let by_piece = put_returned(alloc, &board, round, returned).expect(rt, "memory");
        let entries = complete(alloc, &mut Once::over(round), by_piece).expect(rt, "memory");
        assert_entries(rt, alloc, &entries, "10 1 0, 12 2 0, 14 2 0, ");
        let (first, second) = (board.claim(&mut other, 0), board.claim(&mut other, 1));
        let third = board.claim(&mut other, 2);
        assert!(rt; !first && !second && !third);
        let brought = vec![in alloc; Ok(Vec::new(alloc))].expect(rt, "memory");
        let by_piece = put_all(alloc, round, brought).expect(rt, "memory");
        let entries = complete(alloc, &mut Once::over(round), by_piece).expect(rt, "memory");
        assert_entries(rt, alloc, &entries, "10 1 0, 12 2 0, 14 2 0, ");
    }
}

#[test]
fn pieces_that_nobody_brought_are_claimed_and_searched(rt: HostRuntime) {
    in_third_round(&rt, rt.alloc(), &NothingBrought);
}

/// Pieces that workers brought, here all of the third round, aren't searched again.
struct AllBrought;

impl<R: Abort + Wait> RoundTest<R> for AllBrought {
    ghost ready = { Unit {0} };

    fn run<'r>(&self, rt: &R, alloc: Global, round: &'r Round<'r>) {
        let (board, seat) = Board::open(alloc, round).expect(rt, "memory");
        let (seat, entries) = work(alloc, &board, seat, round, 0, &OpenGate);
        let returned = vec![in alloc; Returned { seat, entries }].expect(rt, "memory");
        let by_piece = put_returned(alloc, &board, round, returned).expect(rt, "memory");
        let entries = complete(alloc, &mut Refused::over(round), by_piece).expect(rt, "memory");
        assert_entries(rt, alloc, &entries, "10 1 0, by 0, by 0, ");
        let pool = Mutex::new(Pool::open(round.pieces.len()));
        let entries = search_pool(rt, alloc, &mut Once::over(round), &pool, &OpenGate, 0);
        let brought = vec![in alloc; entries].expect(rt, "memory");
        let by_piece = put_all(alloc, round, brought).expect(rt, "memory");
        let entries = complete(alloc, &mut Refused::over(round), by_piece).expect(rt, "memory");
        assert_entries(rt, alloc, &entries, "10 1 0, by 0, by 0, ");
    }
}

#[test]
fn pieces_that_workers_brought_are_not_searched_again(rt: HostRuntime) {
    in_third_round(&rt, rt.alloc(), &AllBrought);
}
