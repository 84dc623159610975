// Worked instances by the workers of either crew, which have threads however short a round is.
ghost use Rattle.std.specs.Thread.{IsSync};

use crate::board_runs::{AllWorkers, assert_run};
use crate::instances::{GAP, RELEASED, SHORT_JOBS, instance_of};
use shop_board::{BoardCrew, LockCrew};
use shop_model::Instance;
use shop_runs::{Order, Plan};
use shop_workers::OpenGate;
use std::alloc::Global;
use std::process::Abort;
use std::sync::Wait;
use std::thread::Threads;

/// The rounds of a plan, and the answer: makespan, bound, open nodes, rounds, nodes, and the schedule.
type Row = (u64, &'static str);

/// Answers for `GAP` with a budget of 3.
static OF_GAP: [Row; 4] = [
    (1, "16 10 2 1 3 [0, 5, 8] [8, 9, 10]"),
    (2, "16 10 3 2 9 [0, 5, 8] [8, 9, 10]"),
    (3, "10 10 0 3 10 [2, 7, 10] [0, 1, 2]"),
    (1_000, "10 10 0 3 10 [2, 7, 10] [0, 1, 2]"),
];

/// Answers for `SHORT_JOBS` with a budget of 2: with the nodes as they are kept, and by bound.
static AS_KEPT: [Row; 5] = [
    (1, "12 9 2 1 2 [0, 5] [5, 6] [8] [9]"),
    (2, "12 10 2 2 6 [0, 5] [5, 6] [8] [9]"),
    (3, "12 10 2 3 10 [0, 5] [5, 6] [8] [9]"),
    (4, "10 10 0 4 11 [2, 7] [1, 2] [0] [1]"),
    (1_000, "10 10 0 4 11 [2, 7] [1, 2] [0] [1]"),
];

static BY_BOUND: [Row; 5] = [
    (1, "12 9 2 1 2 [0, 5] [5, 6] [8] [9]"),
    (2, "12 10 2 2 6 [0, 5] [5, 6] [8] [9]"),
    (3, "12 10 2 3 10 [0, 5] [5, 6] [8] [9]"),
    (4, "10 10 0 4 12 [2, 7] [1, 2] [1] [0]"),
    (1_000, "10 10 0 4 12 [2, 7] [1, 2] [1] [0]"),
];

/// Answers for `RELEASED` with a budget of 100.
static OF_RELEASED: [Row; 2] = [
    (0, "11 10 1 0 0 [0, 3] [5, 7] []"),
    (1, "10 10 0 1 6 [0, 6] [4, 6] []"),
];

/// Asserts what `workers` workers of either crew answer: in each round all of them, or one for each piece.
fn assert_by_either_crew<R: Abort + Threads + Wait + Sync>(
    rt: &R,
    alloc: Global,
    instance: &Instance,
    plan: &Plan,
    workers: usize,
    wanted: &str,
)
    requires { IsSync R.row }
{
    let crew = BoardCrew::new(workers, OpenGate).expect(rt, "1 to 64 workers");
    assert_run(rt, alloc, instance, plan, &mut AllWorkers { crew }, wanted);
    let mut crew = LockCrew::new(workers, OpenGate).expect(rt, "1 to 64 workers");
    assert_run(rt, alloc, instance, plan, &mut crew, wanted);
}

/// Asserts the answers for an instance, by pieces of one node.
fn assert_rows<R: Abort + Threads + Wait + Sync>(
    rt: &R,
    alloc: Global,
    text: &str,
    budget: u64,
    order: Order,
    rows: &[Row],
)
    requires { IsSync R.row }
{
    let instance = instance_of(rt, alloc, text);
    for (rounds, wanted) in rows {
        let plan = Plan::ordered(*rounds, budget, 1, order).expect(rt, "a plan");
        for workers in [2, 3, 64] {
            assert_by_either_crew(rt, alloc, &instance, &plan, workers, wanted);
        }
    }
}

#[test]
fn worked_rows_by_several_workers(rt: HostRuntime) {
    let alloc = rt.alloc();
    assert_rows(&rt, alloc, GAP, 3, Order::Kept, &OF_GAP);
    assert_rows(&rt, alloc, SHORT_JOBS, 2, Order::Kept, &AS_KEPT);
    assert_rows(&rt, alloc, SHORT_JOBS, 2, Order::Bound, &BY_BOUND);
    assert_rows(&rt, alloc, RELEASED, 100, Order::Kept, &OF_RELEASED);
}
