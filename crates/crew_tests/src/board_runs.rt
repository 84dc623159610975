// Runs of many rounds by workers on a board, beside runs by one thread alone.
ghost use Rattle.std.specs.Thread.{IsSync};

use crate::instances::{FT06, FT06_STRETCHED, instance_of};
use crate::telling::{assert_told, told_of};
use shop_board::{BoardCrew, WorkerCrew};
use shop_model::Instance;
use shop_round::run_alone;
use shop_runs::{Crew, Entry, Order, Plan, Round, Workers, run};
use shop_workers::OpenGate;
use std::alloc::{AllocError as NoMemory, Global};
use std::process::Abort;
use std::thread::Threads;

/// A crew that searches each round by all its workers, however short the round is.
#[derive(Drop)]
pub struct AllWorkers {
    pub crew: BoardCrew<OpenGate>,
}

impl<R: Threads + Sync> Crew<R> for AllWorkers {
    ghost ready = { IsSync R.row };

    fn search<'r>(
        &mut self,
        rt: &R,
        alloc: Global,
        round: &'r Round<'r>,
    ) -> Result<Vec<Entry<'r>>, NoMemory> {
        self.crew.search_round(rt, alloc, round)
    }
}

/// Asserts what a crew answers by a plan.
pub fn assert_run<R: Abort, C: Crew<R>>(
    rt: &R,
    alloc: Global,
    instance: &Instance,
    plan: &Plan,
    crew: &mut C,
    wanted: &str,
)
    requires { C.ready }
{
    let answer = run(rt, alloc, instance, plan, crew).expect(rt, "memory");
    assert_told(
        rt,
        "by workers",
        told_of(rt, alloc, &answer).as_str(),
        wanted,
    );
}

/// Asserts what several workers answer by a plan: all of them in each round, and as many as the program starts.
fn assert_by_workers<R: Abort + Threads + Sync>(
    rt: &R,
    alloc: Global,
    instance: &Instance,
    plan: &Plan,
    wanted: &str,
)
    requires { IsSync R.row }
{
    for count in [2, 3, 4, 16, 64] {
        let crew = BoardCrew::new(count, OpenGate).expect(rt, "1 to 64 workers");
        assert_run(rt, alloc, instance, plan, &mut AllWorkers { crew }, wanted);
    }
    let workers = Workers::new(64).expect(rt, "1 to 64 workers");
    let mut crew = WorkerCrew::Several(BoardCrew::of(workers, OpenGate));
    assert_run(rt, alloc, instance, plan, &mut crew, wanted);
}

/// Asserts that a plan's rounds by several workers come to what one thread alone comes to: the least makespan.
fn assert_many_rounds<R: Abort + Threads + Sync>(
    rt: &R,
    alloc: Global,
    text: &str,
    plan: &Plan,
    least: u64,
)
    requires { IsSync R.row }
{
    let instance = instance_of(rt, alloc, text);
    let alone = run_alone(alloc, &instance, plan).expect(rt, "memory");
    assert!(rt; alone.makespan == least && alone.bound == least && alone.open_nodes == 0);
    let wanted = told_of(rt, alloc, &alone);
    assert_by_workers(rt, alloc, &instance, plan, wanted.as_str());
}

/// Pieces of one node with a budget of two: the search takes 31 rounds in one order and 19 in the other, none of which
/// is worth a second worker. With a budget of ten, rounds of 178 pieces and more are worth one, and others aren't. Open
/// nodes by bound of one instance are in a row of stacks, those of the other in a map.
#[test]
fn many_rounds_by_any_number_of_workers(rt: HostRuntime) {
    for (budget, order) in [
        (2, Order::Kept),
        (2, Order::Bound),
        (10, Order::Kept),
        (10, Order::Bound),
    ] {
        let plan = Plan::ordered(1_000, budget, 1, order).expect(&rt, "a plan");
        assert_many_rounds(&rt, rt.alloc(), FT06, &plan, 55);
        assert_many_rounds(&rt, rt.alloc(), FT06_STRETCHED, &plan, 66_000);
    }
}
