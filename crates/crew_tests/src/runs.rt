// Answers by one thread alone, and by the workers of a crew behind a lock.
ghost use Rattle.shop_runs.specs.Standings.{IsStandingOf};

use crate::instances::{CROSSING, GAP, ZEROS, instance_of};
use crate::rounds::after_round;
use crate::telling::{assert_told, told_of};
use shop_board::LockCrew;
use shop_model::Instance;
use shop_round::{Alone, run_alone};
use shop_runs::{Crew, Entry, Order, Plan, Round, Standing, run};
use shop_workers::OpenGate;
use std::alloc::{AllocError as NoMemory, Global};
use std::fmt::Write;
use std::process::Abort;

/// An instance, the rounds and the budget of a plan with pieces of one node, and the answer: makespan, bound, open
/// nodes, rounds, nodes, and the schedule.
type Run = (&'static str, u64, u64, &'static str);

static RUNS: [Run; 10] = [
    (CROSSING, 1, 100, "7 7 0 1 6 [0, 3] [0, 3]"),
    (CROSSING, 0, 100, "11 7 1 0 0 [0, 3] [5, 7]"),
    (CROSSING, 1, 5, "7 7 0 1 5 [0, 3] [0, 3]"),
    (CROSSING, 1, 1, "11 7 1 1 1 [0, 3] [5, 7]"),
    (ZEROS, 1, 100, "5 5 0 1 8 [0, 4, 5] [0, 0, 5]"),
    (GAP, 1, 100, "10 10 0 1 8 [2, 7, 10] [0, 1, 2]"),
    (GAP, 1, 3, "16 10 2 1 3 [0, 5, 8] [8, 9, 10]"),
    (GAP, 2, 3, "16 10 3 2 9 [0, 5, 8] [8, 9, 10]"),
    (GAP, 3, 3, "10 10 0 3 10 [2, 7, 10] [0, 1, 2]"),
    (GAP, 1000, 3, "10 10 0 3 10 [2, 7, 10] [0, 1, 2]"),
];

fn assert_alone(rt: &impl Abort, alloc: Global, instance: &Instance, plan: &Plan, wanted: &str) {
    let answer = run_alone(alloc, instance, plan).expect(rt, "memory");
    assert_told(rt, "alone", told_of(rt, alloc, &answer).as_str(), wanted);
}

#[test]
fn answers_by_one_thread(rt: HostRuntime) {
    for (text, rounds, budget, wanted) in &RUNS {
        let instance = instance_of(&rt, rt.alloc(), text);
        let plan = Plan::new(*rounds, *budget, 1).expect(&rt, "a plan");
        assert_alone(&rt, rt.alloc(), &instance, &plan, wanted);
    }
}

/// The last time of two jobs on two machines, whether the instance also has six idle jobs of 85 steps, and the least
/// makespan. All times add up to 7 more than the last one. With four operations, a row of stacks by bound is used up to
/// an opening makespan of 639, tested at 639 and 640; with 514 operations up to 65,536, the most for any instance,
/// tested at that and 65,537.
static AT_THE_LONGEST_ROW: [(u64, bool, u64); 4] = [
    (632, false, 635),
    (633, false, 636),
    (65_529, true, 65_532),
    (65_530, true, 65_533),
];

/// The text of such an instance.
fn text_with_last(rt: &impl Abort, alloc: Global, time: u64, is_beside_idle: bool) -> String {
    let jobs = if is_beside_idle { 8 } else { 2 };
    let text = format!(in alloc; "{jobs} 2\n0 0 3 1 2\n0 1 2 0 {time}\n");
    let mut text = text.expect(rt, "memory");
    let steps = " 0 0".repeat(alloc, 85).expect(rt, "memory");
    for _ in 2..jobs {
        write!(text, "0{steps}\n").expect(rt, "memory");
    }
    text
}

#[test]
fn open_nodes_by_bound_in_a_row_and_in_a_map(rt: HostRuntime) {
    for (time, is_beside_idle, least) in &AT_THE_LONGEST_ROW {
        let text = text_with_last(&rt, rt.alloc(), *time, *is_beside_idle);
        let instance = instance_of(&rt, rt.alloc(), text.as_str());
        let plan = Plan::ordered(1_000, 1, 1, Order::Bound).expect(&rt, "a plan");
        let answer = run_alone(rt.alloc(), &instance, &plan).expect(&rt, "memory");
        assert!(&rt; answer.makespan == *least && answer.bound == *least && answer.open_nodes == 0);
    }
}

/// The text of nine jobs that each visit seven machines, with times of 1 to `longest`, each `unit` times as long.
fn made_text(rt: &impl Abort, alloc: Global, longest: u64, unit: u64) -> String {
    let mut text = String::new(alloc);
    write!(text, "9 7\n").expect(rt, "memory");
    for job in 0..9_u64 {
        write!(text, "0").expect(rt, "memory");
        for step in 0..7_u64 {
            let machine = step.wrapping_mul(1 + job % 6).wrapping_add(job) % 7;
            let time = job.wrapping_mul(31).wrapping_add(step.wrapping_mul(17)) % longest.max(1);
            let time = time.wrapping_add(1).wrapping_mul(unit);
            write!(text, " {machine} {time}").expect(rt, "memory");
        }
        write!(text, "\n").expect(rt, "memory");
    }
    text
}

/// Asserts that a run by `plan` ends where the rounds that are cut and gathered one by one do.
fn assert_stands(rt: &impl Abort, alloc: Global, instance: &Instance, plan: &Plan, end: &Standing) {
    let answer = run_alone(alloc, instance, plan).expect(rt, "memory");
    let least = end
        .open
        .iter()
        .map(|node| node.bound)
        .min()
        .unwrap_or(end.makespan);
    assert!(rt; answer.makespan == end.makespan && answer.bound == least);
    assert!(rt; answer.open_nodes == end.open.len() && answer.nodes == end.nodes);
}

/// The standing after one more round, or `standing` itself if no node is open.
fn after_one(
    rt: &impl Abort,
    alloc: Global,
    instance: &Instance,
    plan: &Plan,
    standing: Standing,
) -> Standing
    requires { IsStandingOf instance.now standing }
    ensures { IsStandingOf instance.now result }
{
    if standing.open.is_empty() {
        return standing;
    }
    after_round(rt, alloc, instance, plan, standing)
}

/// The longest time, its unit, a budget, a piece, an order, and the least number of nodes open after three rounds: more
/// than a fourth round takes, or in the last two cases more than a piece holds. By bound they are in a row of stacks,
/// or with a unit of 1000 in a map.
static MANY_OPEN: [(u64, u64, u64, usize, Order, usize); 7] = [
    (40, 1, 9, 1, Order::Bound, 257),
    (3, 1, 9, 1, Order::Bound, 257),
    (40, 1, 20, 2, Order::Bound, 513),
    (40, 1_000, 9, 1, Order::Bound, 257),
    (40, 1, 9, 1, Order::Kept, 257),
    (40, 1, 300, 17, Order::Bound, 18),
    (40, 1, 300, 17, Order::Kept, 18),
];

/// Rounds that are cut one by one keep all nodes open; a run by bound only counts those that no round left can take.
#[test]
fn runs_end_where_rounds_do(rt: HostRuntime) {
    for (longest, unit, budget, piece, order, open) in &MANY_OPEN {
        let text = made_text(&rt, rt.alloc(), *longest, *unit);
        let instance = instance_of(&rt, rt.alloc(), text.as_str());
        let plan_of = |rounds: u64| -> Plan {
            Plan::ordered(rounds, *budget, *piece, *order).expect(&rt, "a plan")
        };
        let all = plan_of(9);
        let start = Standing::start(rt.alloc(), &instance).expect(&rt, "memory");
        let first = after_one(&rt, rt.alloc(), &instance, &all, start);
        assert_stands(&rt, rt.alloc(), &instance, &plan_of(1), &first);
        let second = after_one(&rt, rt.alloc(), &instance, &all, first);
        assert_stands(&rt, rt.alloc(), &instance, &plan_of(2), &second);
        let third = after_one(&rt, rt.alloc(), &instance, &all, second);
        assert_stands(&rt, rt.alloc(), &instance, &plan_of(3), &third);
        assert!(rt; third.open.len() >= *open);
        let fourth = after_one(&rt, rt.alloc(), &instance, &all, third);
        assert_stands(&rt, rt.alloc(), &instance, &plan_of(4), &fourth);
    }
}

fn assert_run<R: Abort, C: Crew<R>>(rt: &R, alloc: Global, row: &Run, crew: &mut C)
    requires { C.ready }
{
    let (text, rounds, budget, wanted) = *row;
    let instance = instance_of(rt, alloc, text);
    let plan = Plan::new(rounds, budget, 1).expect(rt, "a plan");
    let answer = run(rt, alloc, &instance, &plan, crew).expect(rt, "memory");
    assert_told(rt, text, told_of(rt, alloc, &answer).as_str(), wanted);
}

#[test]
fn answers_by_any_number_of_workers(rt: HostRuntime) {
    for row in &RUNS {
        for workers in [1, 2, 3, 64] {
            let mut crew = LockCrew::new(workers, OpenGate).expect(&rt, "1 to 64 workers");
            assert_run(&rt, rt.alloc(), row, &mut crew);
        }
    }
}

/// A crew of a caller: it searches on the calling thread, and counts the rounds.
#[derive(Drop)]
struct Counting {
    rounds: u64,
}

impl<R> Crew<R> for Counting {
    ghost ready = { Unit {0} };

    fn search<'r>(
        &mut self,
        _rt: &R,
        alloc: Global,
        round: &'r Round<'r>,
    ) -> Result<Vec<Entry<'r>>, NoMemory> {
        self.rounds = self.rounds.saturating_add(1);
        Alone.search_round(alloc, round)
    }
}

/// No search takes more than three rounds.
#[test]
fn each_round_is_searched_once(rt: HostRuntime) {
    for row in &RUNS {
        let mut crew = Counting { rounds: 0 };
        assert_run(&rt, rt.alloc(), row, &mut crew);
        assert!(rt; crew.rounds == row.1.min(3));
    }
}
