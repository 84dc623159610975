// A board by hand: three pieces, of which the first ends at the opening bound.
ghost use Rattle.std.specs.Prelude.{◌≡◌, All, IfOk, IfSome, length, true};
ghost use Rattle.std.specs.Thread.{IsSync};
ghost use Rattle.shop_runs.specs.Hits.{hits_of_round, is_hit_in};
ghost use Rattle.shop_workers.specs.Seats.{hits_of, IsSeatOf};
ghost use Rattle.crew_tests.specs.inner.Handled.{HasHandledOf};

use crate::rounds::{RoundTest, in_third_round};
use crate::telling::{assert_entries, assert_number};
use shop_board::work;
use shop_round::PieceSearcher;
use shop_runs::{PieceSearch, Round};
use shop_workers::{Board, OpenGate, Seat, has_all};
use std::alloc::{AllocError as NoMemory, Global};
use std::process::Abort;
use std::thread;
use std::thread::Threads;

/// There are three pieces, and the first ends at the opening bound.
fn assert_first_hits<'r>(rt: &impl Abort, alloc: Global, round: &'r Round<'r>)
    ensures pieces { length round.now.pieces.items ≡ 3 }
    ensures hit { is_hit_in (hits_of_round round.now) 0 ≡ true }
{
    assert_number(rt, round.pieces.len(), 3);
    assert!(rt; round.bound == 10);
    let mut searcher = PieceSearcher::over(round);
    let sheet = searcher.search(alloc, 0).expect(rt, "memory");
    assert!(rt; sheet.makespan == 10);
}

struct TwoSeats;

impl<R: Abort> RoundTest<R> for TwoSeats {
    ghost ready = { Unit {0} };

    fn run<'r>(&self, rt: &R, alloc: Global, round: &'r Round<'r>) {
        assert_first_hits(rt, alloc, round);
        let (board, seat) = Board::open(alloc, round).expect(rt, "memory");
        assert_number(rt, board.pieces(), 3);
        let (mut a, mut b) = board.split(seat);
        let is_won = board.claim(&mut a, 0);
        let is_won_twice = board.claim(&mut b, 0);
        let are_others_won = board.claim(&mut b, 1) && board.claim(&mut a, 2);
        assert!(rt; is_won && !is_won_twice && are_others_won);
        assert_number(rt, board.look(&mut b), 3);
        board.mark(&mut a, 0);
        assert_number(rt, board.look(&mut b), 0);
        assert_number(rt, board.look(&mut b), 0);
        let seat = board.join(a, b);
        has_all(&seat);
        assert_number(rt, board.close(seat), 0);
    }
}

#[test]
fn two_seats_on_one_thread(rt: HostRuntime) {
    in_third_round(&rt, rt.alloc(), &TwoSeats);
}

struct Marked;

impl<R: Abort> RoundTest<R> for Marked {
    ghost ready = { Unit {0} };

    fn run<'r>(&self, rt: &R, alloc: Global, round: &'r Round<'r>) {
        assert_first_hits(rt, alloc, round);
        let (board, seat) = Board::open(alloc, round).expect(rt, "memory");
        let (mut a, b) = board.split(seat);
        assert!(rt; board.claim(&mut a, 0));
        board.mark(&mut a, 0);
        let (_b, entries) = work(alloc, &board, b, round, 1, &OpenGate);
        assert_entries(rt, alloc, &entries.expect(rt, "memory"), "by 0, by 0, ");
    }
}

#[test]
fn a_worker_passes_behind_the_mark_of_another_seat(rt: HostRuntime) {
    in_third_round(&rt, rt.alloc(), &Marked);
}

/// Makes three seats of one that has won nothing.
fn three_seats(rt: &impl Abort, alloc: Global, board: &Board, seat: Seat) -> Vec<Seat>
    requires { HasHandledOf board.now seat 0 }
    ensures { All (λ s. HasHandledOf board.now s 0) result.items }
{
    let (first, second) = board.split(seat);
    let (second, third) = board.split(second);
    vec![in alloc; first, second, third].expect(rt, "memory")
}

/// Claims each of three pieces, and says of each whether it was won.
fn claim_all(board: &Board, mut seat: Seat) -> [bool; 3]
    requires { IsSeatOf board.now seat }
{
    let mut won = [false; 3];
    for number in 0..board.pieces().min(3) {
        won[number] = board.claim(&mut seat, number);
    }
    won
}

/// Lets each seat claim all pieces on a thread of its own.
fn claim_by_threads<R: Threads + Sync>(
    rt: &R,
    board: &Board,
    seats: Vec<Seat>,
) -> Result<Vec<[bool; 3]>, NoMemory>
    requires { All (λ s. IsSeatOf board.now s) seats.items }
{
    let worker = move |seat: Seat| -> [bool; 3]
        requires { IsSeatOf board.now seat }
    { claim_all(board, seat) };
    thread::map_vec(rt, seats, &worker)
}

/// Counts the seats that won a piece.
fn winners(lists: &[[bool; 3]], number: usize) -> usize {
    let mut count: usize = 0;
    for won in lists {
        if won.get(number) == Some(&true) {
            count = count.saturating_add(1);
        }
    }
    count
}

struct Claims;

impl<R: Abort + Threads + Sync> RoundTest<R> for Claims {
    ghost ready = { IsSync R.row };

    fn run<'r>(&self, rt: &R, alloc: Global, round: &'r Round<'r>) {
        let (board, seat) = Board::open(alloc, round).expect(rt, "memory");
        assert_number(rt, board.pieces(), 3);
        let seats = three_seats(rt, alloc, &board, seat);
        let lists = claim_by_threads(rt, &board, seats).expect(rt, "memory");
        assert_number(rt, winners(&lists, 0), 1);
        assert_number(rt, winners(&lists, 1), 1);
        assert_number(rt, winners(&lists, 2), 1);
    }
}

#[test]
fn each_piece_is_won_once(rt: HostRuntime) {
    in_third_round(&rt, rt.alloc(), &Claims);
}

/// A seat that has worked, and how many pieces it won.
#[derive(Drop)]
struct Worked {
    seat: Seat,
    won: usize,
}

fn work_one<'r>(alloc: Global, board: &Board, seat: Seat, round: &'r Round<'r>) -> Option<Worked>
    requires seat { HasHandledOf board.now seat 0 }
    requires round { hits_of board.now ≡ hits_of_round round.now }
    ensures { IfSome result (λ w. HasHandledOf board.now w.seat w.won) }
{
    let (seat, entries) = work(alloc, board, seat, round, 0, &OpenGate);
    match entries {
        Ok(entries) => Some(Worked {
            seat,
            won: entries.len(),
        }),
        Err(NoMemory) => None,
    }
}

/// Lets each seat work on a thread of its own.
fn work_by_threads<'r, R: Threads + Sync>(
    rt: &R,
    alloc: Global,
    board: &Board,
    seats: Vec<Seat>,
    round: &'r Round<'r>,
) -> Result<Vec<Option<Worked>>, NoMemory>
    requires seats { All (λ s. HasHandledOf board.now s 0) seats.items }
    requires round { hits_of board.now ≡ hits_of_round round.now }
    ensures { IfOk result
        (λ v. All (λ o. IfSome o (λ w. HasHandledOf board.now w.seat w.won)) v.items) }
{
    let worker = move |seat: Seat| -> Option<Worked>
        requires { HasHandledOf board.now seat 0 × (hits_of board.now ≡ hits_of_round round.now) }
        ensures { IfSome result (λ w. HasHandledOf board.entry.now w.seat w.won) }
    { work_one(alloc, board, seat, round) };
    thread::map_vec(rt, seats, &worker)
}

fn join_two(rt: &impl Abort, board: &Board, first: Worked, second: Worked) -> Worked
    requires first { HasHandledOf board.now first.seat first.won }
    requires second { HasHandledOf board.now second.seat second.won }
    ensures { HasHandledOf board.now result.seat result.won }
{
    Worked {
        won: first.won.checked_add(second.won).expect(rt, "few pieces"),
        seat: board.join(first.seat, second.seat),
    }
}

fn join_worked(rt: &impl Abort, board: &Board, mut all: Vec<Option<Worked>>) -> Worked
    requires { All (λ o. IfSome o (λ w. HasHandledOf board.now w.seat w.won)) all.items }
    ensures { HasHandledOf board.now result.seat result.won }
{
    let mut joined = all.pop().flatten().expect(rt, "memory");
    while let Some(worked) = all.pop() {
        joined = join_two(rt, board, joined, worked.expect(rt, "memory"));
    }
    joined
}

struct ThreeSeats;

impl<R: Abort + Threads + Sync> RoundTest<R> for ThreeSeats {
    ghost ready = { IsSync R.row };

    fn run<'r>(&self, rt: &R, alloc: Global, round: &'r Round<'r>) {
        let (board, seat) = Board::open(alloc, round).expect(rt, "memory");
        let seats = three_seats(rt, alloc, &board, seat);
        let worked = work_by_threads(rt, alloc, &board, seats, round).expect(rt, "memory");
        let all = join_worked(rt, &board, worked);
        assert_number(rt, all.won, board.pieces());
        has_all(&all.seat);
        assert_number(rt, board.close(all.seat), 0);
    }
}

#[test]
fn three_seats_work_and_close(rt: HostRuntime) {
    in_third_round(&rt, rt.alloc(), &ThreeSeats);
}
