// Reports of worked instances.
ghost use Rattle.std.specs.Thread.{IsSync};

use crate::runs::{CROSSING, GAP, RELEASED, TAILLARD, TWO_EXAMPLES, ZEROS, reports};
use std::fmt::Write;
use std::process::Abort;
use std::rt::Files;
use std::thread::Threads;

/// A command line, an instance text, and the whole report.
static WHOLE: [(&str, &str, &str); 5] = [
    (
        "solve --rounds 1 --budget 100 --gantt",
        CROSSING,
        "instance 1\nsize 2 2\nmakespan 7\nbound 7\nstatus optimal\nopen 0\nrounds 1\nnodes 6\njob 0: 0 3\n\
        job 1: 0 3\nunit 1\nmachine 0 |0001111|\nmachine 1 |11.00..|\n",
    ),
    (
        "solve --rounds 1 --budget 100 --gantt",
        GAP,
        "instance 1\nsize 2 3\nmakespan 10\nbound 10\nstatus optimal\nopen 0\nrounds 1\nnodes 8\n\
        job 0: 2 7 10\njob 1: 0 1 2\n\
        unit 1\nmachine 0 |.100000...|\nmachine 1 |1......000|\nmachine 2 |..111111..|\n",
    ),
    (
        "solve --gantt",
        "1 1\n0 0\n",
        "instance 1\nsize 1 1\nmakespan 0\nbound 0\nstatus optimal\nopen 0\nrounds 0\nnodes 0\njob 0: 0\nunit 1\n\
        machine 0 ||\n",
    ),
    (
        "solve --name gap --rounds 1 --budget 100",
        TWO_EXAMPLES,
        "instance gap\nsize 2 3\nmakespan 10\nbound 10\nstatus optimal\nopen 0\nrounds 1\nnodes 8\n\
        job 0: 2 7 10\njob 1: 0 1 2\n",
    ),
    (
        "solve --format routes --rounds 1 --budget 100 --gantt",
        RELEASED,
        "instance 1\nsize 3 2\nmakespan 10\nbound 10\nstatus optimal\nopen 0\nrounds 1\nnodes 6\njob 0: 0 6\n\
        job 1: 4 6\njob 2:\nunit 1\nmachine 0 |000...1111|\nmachine 1 |....1100..|\n",
    ),
];

#[test]
fn whole_reports(rt: HostRuntime) {
    for (line, text, report) in &WHOLE {
        reports(&rt, line, text, report);
    }
}

/// Options of `solve`, the makespan, the bound, the open nodes, the rounds and the nodes, and the starts of each job.
type Report = (&'static str, [u64; 5], &'static str);

/// Makes the whole report of an instance of `size` from its row.
fn report_of<R: AllocGlobal + Abort>(rt: &R, size: &str, row: &Report) -> String {
    let (_, [makespan, bound, open, rounds, nodes], starts) = *row;
    let status = if open == 0 { "optimal" } else { "open" };
    let mut report = format!(in rt.alloc();
        "instance 1\nsize {size}\nmakespan {makespan}\nbound {bound}\nstatus {status}\nopen {open}\n\
        rounds {rounds}\nnodes {nodes}\n"
    )
    .expect(rt, "memory");
    for (job, starts) in starts.lines().enumerate() {
        write!(report, "job {job}{starts}\n").expect(rt, "memory");
    }
    report
}

/// Asserts the reports of an instance of `size`, by the options of each row.
fn each_reports<R: Files + Threads + Sync + AllocGlobal + Abort>(
    rt: &R,
    text: &str,
    size: &str,
    more: &str,
    rows: &[Report],
)
    requires { IsSync R.row }
{
    for row in rows {
        let options = row.0;
        let line = format!(in rt.alloc(); "solve {more} {options}").expect(rt, "memory");
        let report = report_of(rt, size, row);
        reports(rt, line.as_str(), text, report.as_str());
    }
}

static OF_CROSSING: [Report; 3] = [
    ("--rounds 0", [11, 7, 1, 0, 0], ": 0 3\n: 5 7"),
    ("--rounds 1 --budget 5", [7, 7, 0, 1, 5], ": 0 3\n: 0 3"),
    ("--rounds 1 --budget 1", [11, 7, 1, 1, 1], ": 0 3\n: 5 7"),
];

static OF_ZEROS: [Report; 1] = [("", [5, 5, 0, 1, 8], ": 0 4 5\n: 0 0 5")];

/// Reports on `TAILLARD`, whose text has false bounds: they aren't trusted.
static OF_TAILLARD: [Report; 1] = [("", [7, 7, 0, 1, 6], ": 0 3\n: 0 3")];

static OF_RELEASED: [Report; 1] = [("--rounds 0", [11, 10, 1, 0, 0], ": 0 3\n: 5 7\n:")];

/// Reports whose start schedules end at their bounds.
static OF_TWO: [Report; 1] = [("", [5, 5, 0, 0, 0], ": 0\n: 5")];

static OF_ONE: [Report; 1] = [("", [9, 9, 0, 0, 0], ": 0 4 4")];

static OF_NO_OPERATION: [Report; 1] = [("", [0, 0, 0, 0, 0], ":")];

static OF_NO_OPERATIONS: [Report; 1] = [("", [0, 0, 0, 0, 0], ":\n:")];

#[test]
fn reports_of_small_instances(rt: HostRuntime) {
    each_reports(&rt, CROSSING, "2 2", "", &OF_CROSSING);
    each_reports(&rt, ZEROS, "2 3", "--rounds 1 --budget 100", &OF_ZEROS);
    let taillard = "--format taillard --rounds 1 --budget 100";
    each_reports(&rt, TAILLARD, "2 2", taillard, &OF_TAILLARD);
    each_reports(&rt, "2 1\n0 5\n0 0\n", "2 1", "", &OF_TWO);
    each_reports(&rt, "1 3\n2 4 0 0 1 5\n", "1 3", "", &OF_ONE);
    let routes = "--format routes";
    each_reports(&rt, RELEASED, "3 2", routes, &OF_RELEASED);
    each_reports(&rt, "2 1\n0\n5\n", "2 1", routes, &OF_NO_OPERATIONS);
    each_reports(&rt, "1 1\n1000001\n", "1 1", routes, &OF_NO_OPERATION);
}

static ROUNDS: [Report; 4] = [
    ("--rounds 1", [16, 10, 2, 1, 3], ": 0 5 8\n: 8 9 10"),
    ("--rounds 2", [16, 10, 3, 2, 9], ": 0 5 8\n: 8 9 10"),
    ("--rounds 3", [10, 10, 0, 3, 10], ": 2 7 10\n: 0 1 2"),
    ("", [10, 10, 0, 3, 10], ": 2 7 10\n: 0 1 2"),
];

/// Four jobs, of which two are short, in the format `routes`.
const SHORT_JOBS: &str = "4 3\n0 0 5 1 3\n1 0 1 2 6\n0 1 1\n0 1 1\n";

/// The start schedule of `SHORT_JOBS`. The next two constants are the schedules found in the order kept and by bound.
const IN_TURN: &str = ": 0 5\n: 5 6\n: 8\n: 9";

const KEPT: &str = ": 2 7\n: 1 2\n: 0\n: 1";

const BY_BOUND: &str = ": 2 7\n: 1 2\n: 1\n: 0";

static ORDERS: [Report; 10] = [
    ("--rounds 1", [12, 9, 2, 1, 2], IN_TURN),
    ("--rounds 2", [12, 10, 2, 2, 6], IN_TURN),
    ("--rounds 3", [12, 10, 2, 3, 10], IN_TURN),
    ("--rounds 4 --order kept", [10, 10, 0, 4, 11], KEPT),
    ("", [10, 10, 0, 4, 11], KEPT),
    ("--order bound --rounds 1", [12, 9, 2, 1, 2], IN_TURN),
    ("--order bound --rounds 2", [12, 10, 2, 2, 6], IN_TURN),
    ("--order bound --rounds 3", [12, 10, 2, 3, 10], IN_TURN),
    ("--order bound --rounds 4", [10, 10, 0, 4, 12], BY_BOUND),
    ("--order bound", [10, 10, 0, 4, 12], BY_BOUND),
];

#[test]
fn small_rounds_with_any_workers(rt: HostRuntime) {
    let alloc = rt.alloc();
    for workers in [1, 2, 3, 64] {
        let more = format!(in alloc; "--piece 1 --budget 3 --workers {workers}");
        let more = more.expect(&rt, "memory");
        each_reports(&rt, GAP, "2 3", more.as_str(), &ROUNDS);
        let more = format!(in alloc; "--format routes --piece 1 --budget 2 --workers {workers}");
        let more = more.expect(&rt, "memory");
        each_reports(&rt, SHORT_JOBS, "4 3", more.as_str(), &ORDERS);
    }
}
