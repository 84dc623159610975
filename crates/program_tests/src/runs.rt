// Runs of the program over memory.
ghost use Rattle.std.specs.Thread.{IsSync};

use shop_board::ByWorkers;
use shop_engine::{Memory, Reading};
use shop_program::program;
use std::process::Abort;
use std::rt::Files;
use std::thread::Threads;

/// Two jobs that cross two machines.
pub const CROSSING: &str = "2 2\n0 3 1 2\n1 2 0 4\n";

/// Two jobs on three machines, whose first bound is below the least makespan; a last step takes no time.
pub const GAP: &str = "2 3\n0 5 1 3 2 0\n1 1 0 1 2 6\n";

/// Two jobs with several steps of time 0.
pub const ZEROS: &str = "2 3\n0 4 1 1 2 0\n1 0 2 5 0 0\n";

/// Jobs with a release, and one without operations, in the format `routes`.
pub const RELEASED: &str = "3 2\n0 0 3 1 2\n4 1 2 0 4\n7\n";

/// The first instance in Taillard's form, with false bounds.
pub const TAILLARD: &str =
    "a heading in words\n2 2 11 22 6 6\nTimes\n3 2\n2 4\nMachines\n1 2\n2 1\n";

/// Two instances with headers and prose, in lines that end with CR LF.
pub const TWO_EXAMPLES: &str =
    "Two small examples\r\n82\r\n+++++\r\n instance alpha\r\n +++++\r\n First, 2x2\r\n 2 2\r\n \
    0 3 1 2\r\n 1 2 0 4\r\n +++++\r\n \
    instance gap\r\n +++++\r\n Second, 2x3\r\n 2 3\r\n 0 5 1 3 2 0\r\n 1 1 0 1 2 6\r\n";

/// How a run of the program ended: its status, and what it wrote.
#[derive(Drop)]
pub struct Ended {
    pub status: u8,
    pub out: Memory,
    pub err: Memory,
}

/// Splits a command line into its words, and puts the program's name first.
fn words_of<R: AllocGlobal + Abort>(rt: &R, line: &str) -> Vec<String> {
    let alloc = rt.alloc();
    let name = "jobshop".to_string(alloc).expect(rt, "memory");
    let mut words = vec![in alloc; name].expect(rt, "memory");
    for word in line.split_whitespace() {
        let word = word.to_string(alloc).expect(rt, "memory");
        words.push(word).expect(rt, "memory");
    }
    words
}

/// Runs the program on a command line and a text.
pub fn run<R: Files + Threads + Sync + AllocGlobal + Abort>(rt: &R, line: &str, text: &str) -> Ended
    requires { IsSync R.row }
{
    let words = words_of(rt, line);
    let mut source = Reading::new(text.as_bytes());
    let mut out = Memory::with_room(rt.alloc(), 65_536).expect(rt, "memory");
    let mut err = Memory::with_room(rt.alloc(), 65_536).expect(rt, "memory");
    let status = program(
        rt,
        &ByWorkers,
        words.as_slice(),
        &mut source,
        &mut out,
        &mut err,
    );
    Ended { status, out, err }
}

/// Returns the status of a run that says `said`.
fn status_of(said: &str) -> u8 {
    if said.starts_with("error ") {
        3
    } else if said.starts_with("infeasible: ") {
        1
    } else {
        0
    }
}

/// Asserts what a run said, faults on standard error and all else on standard output, and its status.
fn assert_said(rt: &impl Abort, ended: &Ended, line: &str, said: &str) {
    let status = status_of(said);
    let (out, err) = if status < 2 { (said, "") } else { ("", said) };
    assert!(rt;
        ended.out.bytes() == out.as_bytes() && ended.err.bytes() == err.as_bytes(),
        "{line}"
    );
    assert_eq!(rt; ended.status, status, "{line}");
}

/// Asserts what a run says.
pub fn says<R: Files + Threads + Sync + AllocGlobal + Abort>(
    rt: &R,
    line: &str,
    text: &str,
    said: &str,
)
    requires { IsSync R.row }
{
    let ended = run(rt, line, text);
    assert_said(rt, &ended, line, said);
}

/// Returns the command line of `check` for the format and the instance of a `solve`.
fn check_of<R: AllocGlobal + Abort>(rt: &R, solve: &str) -> String {
    let mut check = "check".to_string(rt.alloc()).expect(rt, "memory");
    let mut is_kept = false;
    for word in solve.split_whitespace() {
        if is_kept || word == "--format" || word == "--name" {
            check.push_str(" ").expect(rt, "memory");
            check.push_str(word).expect(rt, "memory");
            is_kept = !is_kept;
        }
    }
    check
}

/// Appends the schedule of a report to an instance text.
fn with_schedule<R: AllocGlobal + Abort>(rt: &R, text: &str, report: &str) -> String {
    let mut schedule = text.to_string(rt.alloc()).expect(rt, "memory");
    for line in report.lines() {
        if line.starts_with("job ") {
            schedule.push_str(line).expect(rt, "memory");
            schedule.push_str("\n").expect(rt, "memory");
        }
    }
    schedule
}

/// Returns what `check` has to say of the schedule of a report.
fn verdict_of<R: AllocGlobal + Abort>(rt: &R, report: &str) -> String {
    let makespan = report
        .lines()
        .find_map(|line| line.strip_prefix("makespan "));
    format!(in rt.alloc(); "feasible {}\n", makespan.unwrap_or("")).expect(rt, "memory")
}

/// Asserts that `check`, given a report's schedule after its instance, finds it feasible with the makespan of the
/// report.
fn is_judged_feasible<R: Files + Threads + Sync + AllocGlobal + Abort>(
    rt: &R,
    solve: &str,
    text: &str,
    report: &str,
)
    requires { IsSync R.row }
{
    let check = check_of(rt, solve);
    let schedule = with_schedule(rt, text, report);
    let verdict = verdict_of(rt, report);
    says(rt, check.as_str(), schedule.as_str(), verdict.as_str());
}

/// Asserts the report of a `solve`, and that `check` judges its schedule feasible.
pub fn reports<R: Files + Threads + Sync + AllocGlobal + Abort>(
    rt: &R,
    line: &str,
    text: &str,
    report: &str,
)
    requires { IsSync R.row }
{
    says(rt, line, text, report);
    is_judged_feasible(rt, line, text, report);
}

/// Returns the report of a run that succeeded, and asserts that it begins with `wanted`.
fn report_of<R: AllocGlobal + Abort>(rt: &R, ended: &Ended, wanted: &str) -> String {
    assert!(rt;
        ended.out.bytes().starts_with(wanted.as_bytes()),
        "{wanted}"
    );
    assert_eq!(rt; ended.status, 0);
    String::from_utf8_lossy(rt.alloc(), ended.out.bytes()).expect(rt, "memory")
}

/// Asserts how the report of a `solve` begins, and that `check` judges its schedule feasible. Returns the report's
/// length.
pub fn report_begins<R: Files + Threads + Sync + AllocGlobal + Abort>(
    rt: &R,
    line: &str,
    text: &str,
    wanted: &str,
) -> usize
    requires { IsSync R.row }
{
    let ended = run(rt, line, text);
    let report = report_of(rt, &ended, wanted);
    is_judged_feasible(rt, line, text, report.as_str());
    report.len()
}
