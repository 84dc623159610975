// The tasks that each kind of work consists of.
use shop_engine::Order;
use shop_engine::Order::{Bound, Kept};

/// A task on fresh random instances.
#[derive(Clone, Copy)]
pub enum Task {
    /// Each instance is solved, by a plan of rounds, budget and order.
    Solve(u64, u64, Order),
    /// Each instance of long routes over three machines is solved, by a plan of rounds, budget and order.
    SolveLongRoutes(u64, u64, Order),
    /// Feasible schedules of one instance are judged.
    CheckFeasible,
    /// Schedules of one instance are judged, in which an operation begins too early.
    CheckEarly,
    /// Schedules of one instance are judged, whose only overlap comes late.
    CheckLateOverlap,
    /// The instances of one text are listed.
    List,
}

use Task::{CheckEarly, CheckFeasible, CheckLateOverlap, List, Solve, SolveLongRoutes};

/// The tasks of all kinds: the kind, the jobs and machines of an instance, how many instances or schedules there are,
/// and the task. Sizes and plans are such that a kind takes some 2 to 4 seconds of a processor of 2.5 GHz.
pub static TASKS: [(&str, usize, usize, usize, Task); 24] = [
    // a first plan for an instance
    ("plan", 10, 10, 3, Solve(20, 1000, Bound)),
    ("plan", 15, 15, 1, Solve(20, 1000, Bound)),
    ("plan", 20, 15, 1, Solve(20, 1000, Bound)),
    // rounds after each of which an answer is published
    ("publish", 10, 10, 2, Solve(400, 10, Bound)),
    ("publish", 15, 15, 2, Solve(400, 10, Bound)),
    // a proof that a schedule is optimal
    ("proof", 10, 10, 4, Solve(20, 10_000, Kept)),
    // a planner's large instances
    ("planner", 50, 15, 1, Solve(7, 1000, Bound)),
    ("planner", 200, 15, 1, Solve(2, 200, Bound)),
    // awkward shapes
    ("large", 1000, 100, 1, Solve(1, 600, Bound)),
    ("large", 11, 3, 1, SolveLongRoutes(30, 20, Kept)),
    // an author of heuristics
    ("verdicts", 20, 15, 11_000, CheckFeasible),
    ("verdicts", 20, 15, 11_000, CheckEarly),
    ("verdicts", 1000, 100, 12, CheckFeasible),
    ("verdicts", 1000, 100, 2, CheckLateOverlap),
    ("verdicts", 15, 15, 5000, List),
    // each of them, on small sizes
    ("small", 6, 6, 2, Solve(5, 100, Bound)),
    ("small", 6, 6, 2, Solve(20, 2, Bound)),
    ("small", 5, 5, 2, Solve(5, 1000, Kept)),
    ("small", 10, 5, 1, Solve(2, 20, Bound)),
    ("small", 4, 3, 1, SolveLongRoutes(3, 20, Kept)),
    ("small", 6, 5, 5, CheckFeasible),
    ("small", 6, 5, 5, CheckEarly),
    ("small", 6, 5, 2, CheckLateOverlap),
    ("small", 6, 5, 3, List),
];
