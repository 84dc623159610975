// Verdicts on made schedules: `check_quickly`, which sorts, says what `check` says, which compares all pairs of jobs.
use crate::numbers::Numbers;
use shop_model::{Instance, Job, Op, Table, Verdict, check, check_quickly};
use std::alloc::Global;
use std::process::Abort;

/// A schedule that is being made: jobs with their starts, and when each of four machines is free.
struct Made {
    jobs: Vec<Job>,
    rows: Vec<Vec<u64>>,
    free: [u64; 4],
}

impl Made {
    /// Adds a job of at most five operations with times of 0 to 3, on any machines. One in `care + 1` operations
    /// doesn't wait for its machine, and one in 501 begins before the one ahead of it has ended.
    fn push_job(&mut self, rt: &impl Abort, alloc: Global, numbers: &mut Numbers, care: u32) {
        let release = numbers.up_to(3);
        let mut route = Vec::new(alloc);
        let mut row = Vec::new(alloc);
        let mut ready = release;
        for _ in 0..numbers.up_to(5) {
            let machine = numbers.up_to(3) as usize % 4;
            let time = numbers.up_to(3);
            let mut start = ready.wrapping_add(numbers.up_to(2));
            if numbers.up_to(care) > 0 {
                start = start.max(self.free[machine]);
            }
            if numbers.up_to(500) == 0 {
                start = ready.saturating_sub(1);
            }
            ready = start.wrapping_add(time);
            self.free[machine] = self.free[machine].max(ready);
            route.push(Op { machine, time }).expect(rt, "memory");
            row.push(start).expect(rt, "memory");
        }
        self.jobs.push(Job { release, route }).expect(rt, "memory");
        self.rows.push(row).expect(rt, "memory");
    }
}

/// Makes a schedule of one to eight jobs, asserts that both verdicts on it agree, and returns the verdict.
fn verdict(rt: &impl Abort, alloc: Global, numbers: &mut Numbers, care: u32) -> Verdict {
    let mut made = Made {
        jobs: Vec::new(alloc),
        rows: Vec::new(alloc),
        free: [0; 4],
    };
    for _ in 0..=numbers.up_to(7) {
        made.push_job(rt, alloc, numbers, care);
    }
    let Made {
        jobs,
        rows,
        free: _,
    } = made;
    let Ok(instance) = Instance::of_jobs(4, jobs) else {
        panic!(rt; "an instance");
    };
    let Some(table) = Table::new(rows) else {
        panic!(rt; "a table");
    };
    let verdict = check_quickly(alloc, &instance, &table).expect(rt, "memory");
    assert!(rt; verdict == check(&instance, &table));
    verdict
}

/// How carefully a schedule is made: from one whose operations don't wait for machines to one that is nearly always
/// feasible.
static CARES: [u32; 5] = [0, 2, 8, 30, 1_000];

#[test]
fn quick_verdicts_are_those_of_check(rt: HostRuntime) {
    let mut numbers = Numbers { state: 1 };
    let mut feasible: usize = 0;
    let mut overlaps: usize = 0;
    let mut early: usize = 0;
    for _ in 0..1_000 {
        for care in &CARES {
            match verdict(&rt, rt.alloc(), &mut numbers, *care) {
                Verdict::Feasible { .. } => feasible = feasible.wrapping_add(1),
                Verdict::Overlap { .. } => overlaps = overlaps.wrapping_add(1),
                _ => early = early.wrapping_add(1),
            }
        }
    }
    assert!(&rt; feasible > 1_000);
    assert!(&rt; overlaps > 1_000);
    assert!(&rt; early > 100);
}
