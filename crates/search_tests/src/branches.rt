// Conflict sets, nodes and their children.
ghost use Rattle.shop_nodes.specs.Nodes.{IsNode};

use crate::instances::{CROSSING, GAP, ZEROS, instance_of};
use crate::words::{assert_told, tell_nodes, word_of};
use shop_model::{Instance, fits, is_full};
use shop_nodes::{Node, children, conflict};
use std::alloc::Global;
use std::fmt::Write;
use std::process::Abort;

/// Makes the node of the word whose jobs are `digits`.
pub fn node_of(rt: &impl Abort, alloc: Global, instance: &Instance, digits: &str) -> Node
    ensures { IsNode instance.now result }
{
    let word = word_of(rt, alloc, digits);
    assert!(rt; fits(instance, &word));
    Node::new(alloc, instance, word).expect(rt, "memory")
}

/// An instance, the jobs of a word, its conflict set, and its children with their bounds.
static BRANCHES: [(&str, &str, &str); 5] = [
    (CROSSING, "", "[1] 1:7"),
    (CROSSING, "1", "[0, 1] 10:7 11:11"),
    (GAP, "", "[1] 1:9"),
    (GAP, "1", "[0, 1] 11:10 10:12"),
    (ZEROS, "", "[1] 1:5"),
];

fn assert_branches(
    rt: &impl Abort,
    alloc: Global,
    instance: &Instance,
    digits: &str,
    wanted: &str,
) {
    let node = node_of(rt, alloc, instance, digits);
    assert!(rt; !is_full(instance, &node.word));
    let jobs = conflict(alloc, instance, &node.word).expect(rt, "memory");
    let nodes = children(alloc, instance, &node).expect(rt, "memory");
    let mut told = format!(in alloc; "{jobs:?}").expect(rt, "memory");
    tell_nodes(rt, &mut told, &nodes);
    assert_told(rt, digits, told.as_str(), wanted);
}

#[test]
fn conflict_sets_and_children(rt: HostRuntime) {
    for (text, digits, wanted) in &BRANCHES {
        let instance = instance_of(&rt, rt.alloc(), text);
        assert_branches(&rt, rt.alloc(), &instance, digits, wanted);
    }
}
