// Searches whose children are bounded together, and one by one: each node left has the bound that `lower_bound` finds
// of its word.
ghost use Rattle.std.specs.Prelude.{◌≤◌};

use crate::numbers::Numbers;
use crate::searches::piece_of;
use shop_bound::lower_bound;
use shop_model::{Instance, Job, Op, fits};
use shop_tree::search;
use std::alloc::Global;
use std::process::Abort;

/// How many jobs, machines, operations of each job, and the greatest time.
pub type Shape = (usize, u32, usize, u32);

/// Shapes with 58 to 90 operations a machine, with wide lanes too; of three and of five jobs, whose conflict sets have
/// two to five candidates; of many jobs on few machines, to which routes come back; and with times of 0 and 1, or all
/// 0.
pub static SHAPES: [Shape; 12] = [
    (10, 12, 70, 9),
    (10, 12, 88, 9),
    (11, 12, 98, 9),
    (11, 12, 98, 2_000),
    (3, 12, 90, 9),
    (5, 3, 40, 9),
    (40, 5, 6, 9),
    (60, 3, 8, 9),
    (60, 3, 8, 2_000),
    (30, 2, 12, 1),
    (25, 6, 6, 0),
    (70, 1, 3, 9),
];

/// The latest releases.
pub static LATEST: [u32; 3] = [0, 5, 60];

/// Makes an instance of this shape, each operation on any machine and for any time up to the greatest, each job
/// released at any time up to `latest`.
pub fn made(
    rt: &impl Abort,
    alloc: Global,
    numbers: &mut Numbers,
    shape: &Shape,
    latest: u32,
) -> Instance {
    let (count, machines, steps, most) = *shape;
    let mut jobs = Vec::new(alloc);
    for _ in 0..count {
        let mut route = Vec::new(alloc);
        for _ in 0..steps {
            let machine = numbers.up_to(machines.saturating_sub(1)) as usize;
            let time = numbers.up_to(most);
            route.push(Op { machine, time }).expect(rt, "memory");
        }
        let release = numbers.up_to(latest);
        jobs.push(Job { release, route }).expect(rt, "memory");
    }
    match Instance::of_jobs(machines as usize, jobs) {
        Ok(instance) => instance,
        Err(_) => panic!(rt; "an instance within the limits"),
    }
}

/// Asserts the bounds of the nodes that a search of the whole instance leaves at this budget.
fn assert_bounds(rt: &impl Abort, alloc: Global, instance: &Instance, budget: u64)
    requires { budget ≤ 1000 }
{
    let piece = piece_of(rt, alloc, instance, &[""]);
    let sheet = search(alloc, instance, &piece, 1_000_000, budget).expect(rt, "memory");
    let left = sheet.left.nodes(alloc).expect(rt, "memory");
    assert!(rt; !left.is_empty());
    for node in &left {
        assert!(rt; fits(instance, &node.word));
        let bound = lower_bound(alloc, instance, &node.word).expect(rt, "memory");
        assert_eq!(rt; node.bound, bound);
    }
}

#[test]
fn bounds_of_nodes_left(rt: HostRuntime) {
    let mut numbers = Numbers { state: 5 };
    for shape in &SHAPES {
        for latest in &LATEST {
            for _ in 0..3 {
                let instance = made(&rt, rt.alloc(), &mut numbers, shape, *latest);
                assert_bounds(&rt, rt.alloc(), &instance, 1);
                assert_bounds(&rt, rt.alloc(), &instance, 12);
                assert_bounds(&rt, rt.alloc(), &instance, 60);
            }
        }
    }
}

/// After a walk to the end of 270 operations, closed children of long words are among the nodes left.
#[test]
fn bounds_of_nodes_left_deep(rt: HostRuntime) {
    let mut numbers = Numbers { state: 5 };
    for latest in &LATEST {
        let instance = made(&rt, rt.alloc(), &mut numbers, &(3, 12, 90, 9), *latest);
        assert_bounds(&rt, rt.alloc(), &instance, 400);
    }
}
