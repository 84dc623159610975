// Bounds of one machine, by thresholds and by Jackson's schedule.
ghost use Rattle.std.specs.Prelude.{◌≡◌, sum_by, IsTrue, IfSome};
ghost use Rattle.shop_bound.specs.OneMachine.{greatest_of, IsSmall};

use crate::instances::{FT06, instance_of};
use crate::words::word_of;
use shop_bound::{Heads, Jackson, Triple, one_machine, tails};
use shop_model::{Instance, Op, fits};
use std::alloc::Global;
use std::process::Abort;

/// Returns the greatest head, the sum of the times and the greatest tail; `None` if the sum overflows.
fn parts_of_extent(triples: &[Triple]) -> Option<(u64, u64, u64)>
    ensures { IfSome result (λ p. (p.0 ≡ greatest_of (λ t. t.head) triples.now)
        × (p.1 ≡ sum_by (λ t. t.time) triples.now)
        × (p.2 ≡ greatest_of (λ t. t.tail) triples.now)) }
{
    let Some((first, others)) = triples.split_first() else {
        return Some((0, 0, 0));
    };
    let (head, times, tail) = parts_of_extent(others)?;
    Some((
        first.head.max(head),
        first.time.checked_add(times)?,
        first.tail.max(tail),
    ))
}

/// Returns whether head, times and tail are together small enough for a one-machine bound.
fn is_small(triples: &[Triple]) -> bool
    ensures { IsTrue result → IsSmall triples.now }
{
    match parts_of_extent(triples) {
        Some((head, times, tail)) => { head < 1 << 48 && times < 1 << 48 && tail < 1 << 48 }
        None => false,
    }
}

/// Asserts the bound by thresholds and by Jackson's schedule, and returns the turns of the schedule.
fn bounded(rt: &impl Abort, alloc: Global, triples: &[Triple], bound: u64) -> u64 {
    assert!(rt; is_small(triples));
    let mut jackson = Jackson::with_room(alloc, triples.len()).expect(rt, "memory");
    assert_eq!(rt;
        [one_machine(triples), jackson.bound(triples)],
        [bound, bound]
    );
    jackson.turns()
}

/// Makes operations of rows with head, time and tail.
fn triples_of(rt: &impl Abort, alloc: Global, rows: &[(u64, u64, u64)]) -> Vec<Triple> {
    let mut triples = Vec::new(alloc);
    for &(head, time, tail) in rows {
        triples
            .push(Triple { head, time, tail })
            .expect(rt, "memory");
    }
    triples
}

/// Heads, times and tails of operations, their bound, and the turns of their schedule.
static SCHEDULES: [(&[(u64, u64, u64)], u64, u64); 6] = [
    (&[], 0, 0),
    (&[(0, 5, 3), (1, 1, 6)], 9, 3),
    (&[(0, 1, 0), (10, 5, 10)], 25, 2),
    (&[(0, 4, 1), (2, 2, 5)], 9, 3),
    (&[(0, 4, 9), (2, 0, 1)], 13, 3),
    (&[(3, 0, 7)], 10, 1),
];

#[test]
fn bounds_and_turns_of_schedules(rt: HostRuntime) {
    for (rows, bound, turns) in &SCHEDULES {
        let triples = triples_of(&rt, rt.alloc(), rows);
        assert_eq!(rt; bounded(&rt, rt.alloc(), &triples, *bound), *turns);
    }
}

/// The operation of a step with its head, and its tail from this row of the job.
fn triple_of(
    rt: &impl Abort,
    heads: &Heads,
    job: usize,
    step: usize,
    op: &Op,
    row: &[u64],
) -> Triple {
    Triple {
        head: heads.head(job, step).expect(rt, "a head"),
        time: op.time,
        tail: *row.get(step).expect(rt, "a tail"),
    }
}

/// Lists the operations of a machine, of which none is placed.
fn on_machine(rt: &impl Abort, alloc: Global, instance: &Instance, machine: usize) -> Vec<Triple> {
    let nothing = word_of(rt, alloc, "");
    assert!(rt; fits(instance, &nothing));
    let heads = Heads::of(alloc, instance, &nothing).expect(rt, "memory");
    let rows = tails(alloc, instance).expect(rt, "memory");
    let mut triples = Vec::new(alloc);
    for (job, row) in rows.iter().enumerate() {
        assert!(rt; job < instance.jobs());
        for (step, op) in instance.route(job).iter().enumerate() {
            if op.machine == machine {
                triples
                    .push(triple_of(rt, &heads, job, step, op, row))
                    .expect(rt, "memory");
            }
        }
    }
    triples
}

/// The operations of machine 4 of ft06.
static ON_MACHINE_4: [(u64, u64, u64); 6] = [
    (20, 6, 0),
    (13, 10, 24),
    (27, 7, 0),
    (18, 8, 9),
    (12, 5, 8),
    (25, 4, 1),
];

#[test]
fn machines_of_ft06(rt: HostRuntime) {
    let instance = instance_of(&rt, rt.alloc(), FT06);
    for (machine, bound) in [48, 47, 47, 47, 52, 49].iter().enumerate() {
        let triples = on_machine(&rt, rt.alloc(), &instance, machine);
        bounded(&rt, rt.alloc(), &triples, *bound);
    }
    let triples = on_machine(&rt, rt.alloc(), &instance, 4);
    let expected = triples_of(&rt, rt.alloc(), &ON_MACHINE_4);
    assert_eq!(rt; triples.as_slice(), expected.as_slice());
}
