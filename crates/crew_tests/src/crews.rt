// Who searches which piece, by either crew: workers that meet at the gate, and one worker.
ghost use Rattle.std.specs.Prelude.{◌<◌};
ghost use Rattle.std.specs.Thread.{IsSync};

use crate::rounds::{RoundTest, in_second_round, in_third_round};
use crate::telling::assert_entries;
use shop_board::{BoardCrew, LockCrew};
use shop_runs::Round;
use shop_workers::{Gate, Seat, SeatGate};
use std::alloc::Global;
use std::process::Abort;
use std::sync::Wait;
use std::sync::atomic::{AtomicUsize, Ordering};
use std::thread;
use std::thread::Threads;

/// Notes which worker searches piece 0 and which piece 1. If workers are to meet there, it holds back whoever searches
/// one of them until the other is searched too, for 10,000,000 turns at most.
#[derive(Drop)]
struct Noting {
    meets: bool,
    workers: [AtomicUsize; 2],
    met: AtomicUsize,
}

const NOBODY: usize = usize::MAX;

impl Noting {
    fn new(meets: bool) -> Noting {
        Noting {
            meets,
            workers: [AtomicUsize::new(NOBODY), AtomicUsize::new(NOBODY)],
            met: AtomicUsize::new(0),
        }
    }

    fn wait_for(&self, piece: usize)
        requires { piece < 2 }
    {
        for _ in 0..10_000_000 {
            if self.workers[piece].load(Ordering::SeqCst) != NOBODY {
                self.met.fetch_add(1, Ordering::SeqCst);
                return;
            }
            thread::yield_now();
        }
    }

    fn note(&self, worker: usize, piece: usize) {
        if piece < 2 {
            self.workers[piece].store(worker, Ordering::SeqCst);
            if self.meets {
                self.wait_for(1 - piece);
            }
        }
    }

    fn noted(&self) -> [usize; 3] {
        [
            self.met.load(Ordering::SeqCst),
            self.workers[0].load(Ordering::SeqCst),
            self.workers[1].load(Ordering::SeqCst),
        ]
    }
}

impl Gate for Noting {
    fn before(&self, worker: usize, piece: usize) {
        self.note(worker, piece);
    }
}

impl SeatGate for Noting {
    fn won(&self, worker: usize, _seat: &Seat, piece: usize) {
        self.note(worker, piece);
    }
}

/// What a number of workers of either crew bring of a round, and one of the two things that their gate may note: how
/// many met, and who searched piece 0 and piece 1.
#[derive(Drop)]
struct Searched {
    workers: usize,
    entries: &'static str,
    noted: [[usize; 3]; 2],
}

fn assert_noted(rt: &impl Abort, gate: &Noting, wanted: &[[usize; 3]]) {
    let noted = gate.noted();
    assert!(rt; wanted.contains(&noted), "{noted:?}");
}

impl<R: Abort + Threads + Wait + Sync> RoundTest<R> for Searched {
    ghost ready = { IsSync R.row };

    fn run<'r>(&self, rt: &R, alloc: Global, round: &'r Round<'r>) {
        let meets = self.workers > 1;
        let lock = LockCrew::new(self.workers, Noting::new(meets)).expect(rt, "workers");
        let entries = lock.search_round(rt, alloc, round).expect(rt, "memory");
        assert_entries(rt, alloc, &entries, self.entries);
        assert_noted(rt, lock.gate(), &self.noted);
        let board = BoardCrew::new(self.workers, Noting::new(meets)).expect(rt, "workers");
        let entries = board.search_round(rt, alloc, round).expect(rt, "memory");
        assert_entries(rt, alloc, &entries, self.entries);
        assert_noted(rt, board.gate(), &self.noted);
    }
}

#[test]
fn two_workers_meet_at_the_gate(rt: HostRuntime) {
    let two = Searched {
        workers: 2,
        entries: "16 3 1, 16 3 2, ",
        noted: [[2, 0, 1], [2, 1, 0]],
    };
    in_second_round(&rt, rt.alloc(), &two);
}

#[test]
fn one_worker_is_worker_0_and_passes_what_stands_behind_a_hit(rt: HostRuntime) {
    let one = Searched {
        workers: 1,
        entries: "16 3 1, 16 3 2, ",
        noted: [[0, 0, 0]; 2],
    };
    in_second_round(&rt, rt.alloc(), &one);
    let one = Searched {
        workers: 1,
        entries: "10 1 0, by 0, by 0, ",
        noted: [[0, 0, NOBODY]; 2],
    };
    in_third_round(&rt, rt.alloc(), &one);
}
