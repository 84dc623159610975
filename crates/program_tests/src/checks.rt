// Lists, verdicts on schedules that follow their instances, and refusals.
use crate::runs::{CROSSING, GAP, RELEASED, TAILLARD, TWO_EXAMPLES, ZEROS, says};

/// The whole report of `CROSSING`, with a makespan that isn't its schedule's.
pub const CHANGED: &str =
    "instance 1\nsize 2 2\nmakespan 3\nbound 7\nstatus optimal\nopen 0\nrounds 1\nnodes 6\njob 0: 0 3\n\
    job 1: 0 3\nunit 1\nmachine 0 |0001111|\nmachine 1 |11.00..|\n";

/// A command line, an instance text, what follows it, and what is printed. A report is a schedule text, whatever its
/// makespan line says; after an instance text in `orlib` it brings a header of its own.
static RUNS: [(&str, &str, &str, &str); 14] = [
    ("list", TWO_EXAMPLES, "", "alpha 2 2\ngap 2 3\n"),
    ("list --format routes", RELEASED, "", "1 3 2\n"),
    ("list", "", "2", "error 5: line 1: bad shape of size line\n"),
    (
        "solve --name beta",
        TWO_EXAMPLES,
        "",
        "error 11: no instance of that name\n",
    ),
    (
        "check --name beta",
        TWO_EXAMPLES,
        "",
        "error 11: no instance of that name\n",
    ),
    (
        "check --name gap",
        TWO_EXAMPLES,
        "job 0: 2 7 10\njob 1: 0 1 2\n",
        "feasible 10\n",
    ),
    (
        "check",
        CROSSING,
        "job 0: 0 3\njob 1: 0 2\n",
        "infeasible: machine 0 overlap of job 0 step 0 and job 1 step 1\n",
    ),
    (
        "check",
        ZEROS,
        "job 0: 0 4 5\njob 1: 0 0 3\n",
        "infeasible: job 1 step 2 begins before step 1 ends\n",
    ),
    (
        "check",
        GAP,
        "job 0: 2 7 10\njob 1: 0 1 5\n",
        "infeasible: machine 2 overlap of job 0 step 2 and job 1 step 2\n",
    ),
    (
        "check",
        "3 1\n0 2\n0 1\n0 2\n",
        "job 0: 0\njob 1: 5\njob 2: 1\n",
        "infeasible: machine 0 overlap of job 0 step 0 and job 2 step 0\n",
    ),
    (
        "check --format routes",
        RELEASED,
        "job 0: 0 6\njob 1: 3 6\njob 2:\n",
        "infeasible: job 1 step 0 begins before its release\n",
    ),
    (
        "check --format routes",
        RELEASED,
        "job 0: 0 6\njob 1: 3 6\n",
        "error 12: line 7: bad schedule\n",
    ),
    ("check", CROSSING, CHANGED, "error 4: no instance\n"),
    ("check --format taillard", TAILLARD, CHANGED, "feasible 7\n"),
];

#[test]
fn lists_and_verdicts(rt: HostRuntime) {
    for (line, text, behind, said) in &RUNS {
        let text = format!(in rt.alloc(); "{text}{behind}").expect(&rt, "memory");
        says(&rt, line, text.as_str(), said);
    }
}

/// Schedules that follow `CROSSING`, each with its makespan, or the line that is refused.
static SCHEDULES: [(&str, Result<u64, usize>); 20] = [
    ("job 0: 0 3\njob 1: 0 3\n", Ok(7)),
    (
        "job 0: 0 3\njob 1: 0 1000000000000000\n",
        Ok(1_000_000_000_000_004),
    ),
    ("job 00: 0 3\njob 1: 0 3\n", Ok(7)),
    ("job0: 9 9\njob 0: 0 3\njob 1: 0 3\n", Ok(7)),
    ("\n\tjob 0: 0  3 \r\n  job 1: 0 003", Ok(7)),
    ("job 0: 0 3\njob 1: 0 1000000000000001\n", Err(5)),
    ("job 0: 0 3\njob 1: 0 18446744073709551616\n", Err(5)),
    ("job 0: 0 18446744073709551619\njob 1: 0 3\n", Err(4)),
    ("job 0: 0 0000000000000000003\njob 1: 0 3\n", Ok(7)),
    ("job 0: 0 00000000000000000003\njob 1: 0 3\n", Ok(7)),
    ("job 0: 0 000000000000000000x\njob 1: 0 3\n", Err(4)),
    ("job 0: 0 0000000000000000000x\njob 1: 0 3\n", Err(4)),
    ("job 0000000000000000000: 0 3\njob 1: 0 3\n", Ok(7)),
    ("job 00000000000000000000: 0 3\njob 1: 0 3\n", Ok(7)),
    ("job 18446744073709551616: 0 3\njob 1: 0 3\n", Err(4)),
    ("job 0 : 0 3\njob 1: 0 3\n", Err(4)),
    ("job 0: 0 3\njob 0: 0 3\n", Err(5)),
    ("job 0: 0 3\njob 1: 0 3\njob 2: 0\n", Err(6)),
    ("job 0: 0 3\njob 1: 0\n", Err(5)),
    ("job 0: 0 3\n", Err(5)),
];

#[test]
fn schedules(rt: HostRuntime) {
    let alloc = rt.alloc();
    for (lines, answer) in &SCHEDULES {
        let text = format!(in alloc; "{CROSSING}{lines}").expect(&rt, "memory");
        let said = match answer {
            Ok(end) => format!(in alloc; "feasible {end}\n"),
            Err(line) => format!(in alloc; "error 12: line {line}: bad schedule\n"),
        };
        let said = said.expect(&rt, "memory");
        says(&rt, "check", text.as_str(), said.as_str());
    }
}
