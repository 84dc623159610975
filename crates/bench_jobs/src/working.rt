// Does the work of a kind, and digests what the engine returns.
use crate::digests::Digest;
use crate::instances::{Size, random_instance, random_text, text_of_long_routes, write_instance};
use crate::numbers::Numbers;
use crate::schedules::{Fault, random_schedule};
use crate::tasks::{TASKS, Task};
use anyhow::{Context, Result, bail};
use shop_engine::{
    CheckArgs, Format, ListArgs, Order, Plan, SolveArgs, check_bytes, list_bytes, solve_bytes,
};
use shop_round::Alone;
use std::alloc::Global;

/// The work of a kind: the numbers that its inputs are made of, and the digest of all answers so far.
#[derive(Drop)]
struct Workload {
    numbers: Numbers,
    digest: Digest,
}

impl Workload {
    /// Adds the report on an instance text, by a plan of `rounds`, `budget` and `order`, with one node in a piece.
    /// Fails with the fault of the engine, or if memory runs out.
    fn solve(
        &mut self,
        alloc: Global,
        format: Format,
        text: &str,
        (rounds, budget, order): (u64, u64, Order),
    ) -> Result<()> {
        let plan = Plan::ordered(rounds, budget, 1, order).context("a plan within the limits")?;
        let args = SolveArgs {
            format,
            name: None,
            plan,
            gantt: false,
        };
        let report = solve_bytes(&(), alloc, text.as_bytes(), &args, &mut Alone)?;
        self.digest.add(report.as_slice());
        Ok(())
    }

    /// Adds the reports on `count` random instances of `size`. Fails with the fault of the engine, or if memory runs
    /// out.
    fn solve_random(
        &mut self,
        alloc: Global,
        size: Size,
        count: usize,
        plan: (u64, u64, Order),
    ) -> Result<()> {
        for _ in 0..count {
            let text = random_text(alloc, &mut self.numbers, size, 1)?;
            self.solve(alloc, Format::Orlib, text.as_str(), plan)?;
        }
        Ok(())
    }

    /// Adds the reports on `count` instances of long routes. Fails with the fault of the engine, or if memory runs out.
    fn solve_long_routes(
        &mut self,
        alloc: Global,
        jobs: usize,
        count: usize,
        plan: (u64, u64, Order),
    ) -> Result<()> {
        for _ in 0..count {
            let text = text_of_long_routes(alloc, &mut self.numbers, jobs)?;
            self.solve(alloc, Format::Routes, text.as_str(), plan)?;
        }
        Ok(())
    }

    /// Adds the verdicts on `count` schedules of a random instance of `size`. Fails with the fault of the engine, or if
    /// memory runs out.
    fn check(&mut self, alloc: Global, size: Size, count: usize, fault: Fault) -> Result<()> {
        let instance = random_instance(alloc, &mut self.numbers, size)?;
        let mut text = String::new(alloc);
        write_instance(&mut text, 0, &instance)?;
        let args = CheckArgs {
            format: Format::Orlib,
            name: None,
        };
        for _ in 0..count {
            let schedule = random_schedule(alloc, &mut self.numbers, &instance, fault)?;
            let schedule = Some(schedule.as_bytes());
            let (is_feasible, line) = check_bytes(alloc, text.as_bytes(), schedule, &args)?;
            self.digest.add(&[u8::from(is_feasible)]);
            self.digest.add(line.as_slice());
        }
        Ok(())
    }

    /// Adds the list of `count` random instances of `size`. Fails with the fault of the engine, or if memory runs out.
    fn list(&mut self, alloc: Global, size: Size, count: usize) -> Result<()> {
        let text = random_text(alloc, &mut self.numbers, size, count)?;
        let args = ListArgs {
            format: Format::Orlib,
        };
        let lines = list_bytes(alloc, text.as_bytes(), &args)?;
        self.digest.add(lines.as_slice());
        Ok(())
    }

    fn work(&mut self, alloc: Global, size: Size, count: usize, task: Task) -> Result<()> {
        match task {
            Task::Solve(rounds, budget, order) => {
                self.solve_random(alloc, size, count, (rounds, budget, order))
            }
            Task::SolveLongRoutes(rounds, budget, order) => {
                self.solve_long_routes(alloc, size.jobs, count, (rounds, budget, order))
            }
            Task::CheckFeasible => self.check(alloc, size, count, Fault::None),
            Task::CheckEarly => self.check(alloc, size, count, Fault::Early),
            Task::CheckLateOverlap => self.check(alloc, size, count, Fault::LateOverlap),
            Task::List => self.list(alloc, size, count),
        }
    }
}

/// Does the tasks of `kind` on inputs made from `seed`, and returns the digest of the engine's answers. Fails if
/// there is no such kind, or with the engine's fault.
pub fn digest_of(alloc: Global, kind: &str, seed: u64) -> Result<u64> {
    let is_known = TASKS.iter().any(|task| task.0 == kind);
    if !is_known {
        bail!("no kind of work of that name");
    }
    let mut workload = Workload {
        numbers: Numbers::new(seed),
        digest: Digest::new(),
    };
    for (name, jobs, machines, count, task) in &TASKS {
        if *name == kind {
            let size = Size {
                jobs: *jobs,
                machines: *machines,
            };
            workload.work(alloc, size, *count, *task)?;
        }
    }
    Ok(workload.digest.word)
}
