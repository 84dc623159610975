// Desks of worked instances, operation by operation.
ghost use Rattle.std.specs.Prelude.{◌≡◌, ◌++◌, ◌∷◌, [], IsTrue};
ghost use Rattle.shop_model.specs.Word.{IsWord};

use crate::instances::{CROSSING, GAP, instance_of};
use shop_bound::Desk;
use shop_model::{Instance, Word, fits};
use std::alloc::Global;
use std::process::Abort;

/// Returns whether a job has an operation left after what is dispatched.
fn has_next(rt: &impl Abort, alloc: Global, instance: &Instance, desk: &Desk, job: usize) -> bool
    ensures { IsTrue result → IsWord instance.now (desk.now.word ++ job ∷ []) }
{
    let mut jobs = Vec::new(alloc);
    for &dispatched in desk.jobs() {
        jobs.push(dispatched as usize).expect(rt, "memory");
    }
    jobs.push(job).expect(rt, "memory");
    fits(instance, &Word::of_jobs(jobs))
}

/// Takes back the operation dispatched last, if there is one.
fn undo(desk: &mut Desk)
    ensures { desk.new.shop ≡ desk.old.shop }
{
    if desk.jobs().len() > 0 {
        desk.undo();
    }
}

/// Dispatches the next operation of a job, or takes back the last one.
fn take_step(
    rt: &impl Abort,
    alloc: Global,
    instance: &Instance,
    desk: &mut Desk,
    job: Option<usize>,
)
    requires { desk.old.shop ≡ instance.now }
    ensures { desk.new.shop ≡ desk.old.shop }
{
    match job {
        Some(job) => {
            assert!(rt; has_next(rt, alloc, instance, desk, job));
            desk.dispatch(job);
        }
        None => undo(desk),
    }
}

/// A step of a desk: the job that is dispatched, or none if the last operation is taken back; and the bound after it.
type Step = (Option<usize>, u64);

/// Asserts the bound of a new desk, and the bound after each step.
fn assert_steps(rt: &impl Abort, alloc: Global, instance: &Instance, first: u64, steps: &[Step]) {
    let mut desk = Desk::new(alloc, instance).expect(rt, "memory");
    assert_eq!(rt; desk.bound(), first);
    for (job, bound) in steps {
        take_step(rt, alloc, instance, &mut desk, *job);
        assert_eq!(rt; desk.bound(), *bound);
    }
}

static OF_CROSSING: [Step; 4] = [(Some(1), 7), (Some(1), 11), (None, 7), (Some(0), 7)];

static OF_GAP: [Step; 6] = [
    (Some(1), 9),
    (Some(1), 10),
    (None, 9),
    (Some(0), 12),
    (None, 9),
    (None, 9),
];

#[test]
fn bounds_of_desks(rt: HostRuntime) {
    let instance = instance_of(&rt, rt.alloc(), CROSSING);
    assert_steps(&rt, rt.alloc(), &instance, 7, &OF_CROSSING);
    let instance = instance_of(&rt, rt.alloc(), GAP);
    assert_steps(&rt, rt.alloc(), &instance, 9, &OF_GAP);
}
