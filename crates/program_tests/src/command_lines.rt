// Tests of faulty command lines.
use crate::runs::{CROSSING, Ended, run};

static FAULTS: [&str; 10] = [
    "solve --workers 0",
    "solve --workers 65",
    "solve --rounds 100001",
    "solve --budget 0",
    "solve --piece 1001",
    "solve --order random",
    "list --format lekin",
    "list --name alpha",
    "check --gantt file",
    "draw file file",
];

/// Returns whether a run ended with status 2, printed nothing and said why.
fn is_refused(ended: &Ended) -> bool {
    ended.status == 2 && ended.out.bytes().is_empty() && !ended.err.bytes().is_empty()
}

#[test]
fn faults_of_the_command_line(rt: HostRuntime) {
    for line in &FAULTS {
        let ended = run(&rt, line, CROSSING);
        assert!(&rt; is_refused(&ended), "{line}");
    }
}

#[test]
fn a_call_for_help(rt: HostRuntime) {
    let ended = run(&rt, "--help", "");
    let said = b"An exact solver of the job shop whose answers are proved\n";
    assert!(&rt; is_refused(&ended) && ended.err.bytes().starts_with(said));
}
