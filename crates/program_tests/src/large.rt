// The classical instance of six jobs, and instances of many jobs.
use crate::runs::{report_begins, reports};
use std::alloc::Global;
use std::fmt::Write;
use std::process::Abort;

/// Fisher and Thompson's instance of six jobs and six machines; its least makespan is 55.
const FT06: &str =
    "instance ft06\n6 6\n2 1 0 3 1 6 3 7 5 3 4 6\n1 8 2 5 4 10 5 10 0 10 3 4\n2 5 3 4 5 8 0 9 1 1 4 7\n\
    1 5 0 5 2 5 3 3 4 8 5 9\n2 9 1 3 4 5 5 4 0 3 3 1\n1 3 3 3 5 9 0 10 4 4 2 1\n";

#[test]
fn six_jobs_of_fisher_and_thompson(rt: HostRuntime) {
    let start =
        "instance ft06\nsize 6 6\nmakespan 152\nbound 52\nstatus open\nopen 1\nrounds 0\nnodes 0\n\
        job 0: 0 1 4 10 17 20\njob 1: 10 18 26 36 46 56\njob 2: 23 60 64 72 81 82\njob 3: 82 87 92 97 100 108\n\
        job 4: 97 106 109 117 121 124\njob 5: 109 125 128 137 147 151\n";
    reports(&rt, "solve --rounds 0", FT06, start);
    let optimal = "instance ft06\nsize 6 6\nmakespan 55\nbound 55\nstatus optimal\nopen 0\n";
    report_begins(&rt, "solve", FT06, optimal);
}

/// Makes the text of `jobs` jobs of one operation each, all of `time` on machine 0.
fn one_machine(rt: &impl Abort, alloc: Global, jobs: usize, time: u64) -> String {
    let rows = format!(in alloc; "0 {time}\n").expect(rt, "memory");
    let rows = rows.as_str().repeat(alloc, jobs).expect(rt, "memory");
    format!(in alloc; "{jobs} 1\n{rows}").expect(rt, "memory")
}

/// Makes the report, up to its chart, on `jobs` jobs of `time` on one machine, which are served one after the other.
fn one_behind_the_other(
    rt: &impl Abort,
    alloc: Global,
    jobs: usize,
    time: u64,
    makespan: u64,
) -> String {
    let mut report = format!(in alloc;
        "instance 1\nsize {jobs} 1\nmakespan {makespan}\nbound {makespan}\n\
        status optimal\nopen 0\nrounds 0\nnodes 0\n"
    )
    .expect(rt, "memory");
    let mut start = 0_u64;
    for job in 0..jobs {
        write!(report, "job {job}: {start}\n").expect(rt, "memory");
        start = start.saturating_add(time);
    }
    report
}

#[test]
fn two_hundred_jobs_on_one_machine(rt: HostRuntime) {
    let text = one_machine(&rt, rt.alloc(), 200, 1_000_000);
    let starts = one_behind_the_other(&rt, rt.alloc(), 200, 1_000_000, 200_000_000);
    assert!(&rt; starts.ends_with("job 199: 199000000\n"));
    let report = format!(in rt.alloc();
        "{starts}unit 2777778\nmachine 0 |0258BDGJMPRUXacfiloqtwz{}|\n",
        "#".repeat(rt.alloc(), 49).expect(&rt, "memory")
    )
    .expect(&rt, "memory");
    reports(&rt, "solve --gantt", text.as_str(), report.as_str());
}

#[test]
fn a_thousand_jobs_on_one_machine(rt: HostRuntime) {
    let text = one_machine(&rt, rt.alloc(), 1_000, 1_000_000_000);
    let starts = one_behind_the_other(&rt, rt.alloc(), 1_000, 1_000_000_000, 1_000_000_000_000);
    assert!(&rt; starts.ends_with("job 999: 999000000000\n"));
    let report = format!(in rt.alloc(); "{starts}unit 13888888889\nmachine 0 |");
    let report = report.expect(&rt, "memory");
    let length = report_begins(&rt, "solve --gantt", text.as_str(), report.as_str());
    assert!(&rt; length == report.len() + 72 + 2);
}
