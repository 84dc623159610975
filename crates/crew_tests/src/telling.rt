// What is said of answers, nodes and entries, and texts and numbers that are asserted.
ghost use Rattle.std.specs.Prelude.{◌≡◌};

use shop_model::Table;
use shop_nodes::Node;
use shop_runs::{Answer, Entry, Kind};
use std::alloc::Global;
use std::fmt::Write;
use std::process::Abort;

/// Asserts that `told` is what is wanted of a case.
pub fn assert_told(rt: &impl Abort, case: &str, told: &str, wanted: &str) {
    assert_eq!(rt; told, wanted, "{case}");
}

/// Asserts that `number` is the one that is wanted.
pub fn assert_number(rt: &impl Abort, number: usize, wanted: usize)
    ensures { number ≡ wanted }
{
    assert_eq!(rt; number, wanted);
}

/// Adds the starts of each job.
fn tell_table(rt: &impl Abort, text: &mut String, table: &Table) {
    for job in 0..table.len() {
        write!(text, " {:?}", table.row(job)).expect(rt, "memory");
    }
}

/// Tells an answer: its makespan, its bound, the open nodes, the rounds, the nodes, and its schedule.
pub fn told_of(rt: &impl Abort, alloc: Global, answer: &Answer) -> String {
    let (makespan, bound, open) = (answer.makespan, answer.bound, answer.open_nodes);
    let (rounds, nodes) = (answer.rounds, answer.nodes);
    let told = format!(in alloc; "{makespan} {bound} {open} {rounds} {nodes}");
    let mut told = told.expect(rt, "memory");
    tell_table(rt, &mut told, &answer.table);
    told
}

/// Adds the jobs of a node, and its bound.
fn tell_node(rt: &impl Abort, text: &mut String, node: &Node) {
    for job in node.word.jobs() {
        write!(text, "{job}").expect(rt, "memory");
    }
    write!(text, ":{} ", node.bound).expect(rt, "memory");
}

/// Tells the jobs and the bound of each node.
pub fn told_of_nodes(rt: &impl Abort, alloc: Global, nodes: &[Node]) -> String {
    let mut told = String::new(alloc);
    for node in nodes {
        tell_node(rt, &mut told, node);
    }
    told
}

/// Adds what is told of an entry: the makespan, the nodes taken and the number of nodes left of a piece that was
/// searched, or the piece that lets this one pass.
fn tell_entry(rt: &impl Abort, alloc: Global, text: &mut String, entry: &Entry) {
    match &entry.kind {
        Kind::Done(sheet) => {
            let left = sheet.left.nodes(alloc).expect(rt, "memory").len();
            write!(text, "{} {} {left}, ", sheet.makespan, sheet.taken).expect(rt, "memory");
        }
        Kind::Passed { number: _, by } => {
            write!(text, "by {by}, ").expect(rt, "memory");
        }
    }
}

/// Asserts what is told of the entries of a round.
pub fn assert_entries(rt: &impl Abort, alloc: Global, entries: &[Entry], wanted: &str) {
    let mut told = String::new(alloc);
    for entry in entries {
        tell_entry(rt, alloc, &mut told, entry);
    }
    assert_told(rt, "entries", told.as_str(), wanted);
}
