// Schedules of random instances, feasible ones and spoilt ones, and their texts.
use crate::instances::{Instance, Step};
use crate::numbers::Numbers;
use std::alloc::{AllocError, Global};
use std::fmt::Write;

/// What is wrong with a schedule.
#[derive(Clone, Copy)]
pub enum Fault {
    /// Nothing: it is feasible.
    None,
    /// One operation begins before its job is ready or its machine is free, unless both are at the same time.
    Early,
    /// Two late jobs take their last steps at the makespan, on the same machine.
    LateOverlap,
}

/// A job that is being placed: when it is ready for its next step, and the starts of its steps so far.
#[derive(Drop)]
struct Row {
    ready: u64,
    starts: Vec<u64>,
}

/// A schedule that is being made: the jobs, and when each machine is free.
#[derive(Drop)]
struct Draft {
    rows: Vec<Row>,
    free: Vec<u64>,
}

impl Draft {
    fn new(alloc: Global, instance: &Instance) -> Result<Draft, AllocError> {
        let mut rows = Vec::with_capacity(alloc, instance.size.jobs)?;
        for _ in 0..instance.size.jobs {
            let starts = Vec::with_capacity(alloc, instance.size.machines)?;
            rows.push(Row { ready: 0, starts })?;
        }
        let free = vec![in alloc; 0_u64; instance.size.machines]?;
        Ok(Draft { rows, free })
    }

    /// Places the next step of a job as early as the job and the machine allow. If `is_early`, writes a start for which
    /// only one of the two is ready, unless both are ready together. Fails with `AllocError` if memory runs out.
    fn place(&mut self, job: usize, step: Step, is_early: bool) -> Result<(), AllocError> {
        let (Some(row), Some(free)) = (self.rows.get_mut(job), self.free.get_mut(step.machine))
        else {
            return Ok(());
        };
        let start = row.ready.max(*free);
        let written = if is_early {
            row.ready.min(*free)
        } else {
            start
        };
        row.starts.push(written)?;
        row.ready = start.saturating_add(step.time);
        *free = row.ready;
        Ok(())
    }

    fn makespan(&self) -> u64 {
        self.free.iter().copied().max().unwrap_or(0)
    }

    /// Lets the last step of a job begin at this time.
    fn begin_last_at(&mut self, job: usize, time: u64) {
        if let Some(row) = self.rows.get_mut(job)
            && let Some(start) = row.starts.last_mut()
        {
            *start = time;
        }
    }

    /// Lets the last steps of two jobs begin at the makespan.
    fn overlap_late(&mut self, jobs: (usize, usize)) {
        let makespan = self.makespan();
        self.begin_last_at(jobs.0, makespan);
        self.begin_last_at(jobs.1, makespan);
    }

    /// Writes the schedule as a text. Fails with `AllocError` if memory runs out.
    fn text(&self, alloc: Global) -> Result<String, AllocError> {
        let mut text = String::new(alloc);
        for (job, row) in self.rows.iter().enumerate() {
            write!(text, "job {job}:")?;
            for start in &row.starts {
                write!(text, " {start}")?;
            }
            text.push_str("\n")?;
        }
        Ok(text)
    }
}

/// Returns step `step` of `job`, or `None` if there is none.
fn step_of(instance: &Instance, job: usize, step: usize) -> Option<Step> {
    instance.routes.get(job)?.get(step).copied()
}

/// The machine of the last step of a job.
fn last_machine(instance: &Instance, job: usize) -> Option<usize> {
    Some(instance.routes.get(job)?.last()?.machine)
}

/// The last job, and the one closest before it whose last step is on the same machine.
fn late_jobs(instance: &Instance) -> Option<(usize, usize)> {
    let last = instance.routes.len().checked_sub(1)?;
    let machine = last_machine(instance, last);
    let other = (0..last)
        .rev()
        .find(|job| last_machine(instance, *job) == machine)?;
    Some((other, last))
}

/// Makes the text of a schedule that places the first steps of all jobs, then the second ones, and so on, each time
/// with the jobs in a random order. Fails with `AllocError` if memory runs out.
pub fn random_schedule(
    alloc: Global,
    numbers: &mut Numbers,
    instance: &Instance,
    fault: Fault,
) -> Result<String, AllocError> {
    let mut draft = Draft::new(alloc, instance)?;
    let size = instance.size;
    let early_step = numbers.below(size.machines.max(1));
    let early_job = numbers.below(size.jobs.max(1));
    for step in 0..size.machines {
        for job in numbers.shuffled(alloc, size.jobs)? {
            let Some(placed) = step_of(instance, job, step) else {
                continue;
            };
            let is_early = matches!(fault, Fault::Early) && step == early_step && job == early_job;
            draft.place(job, placed, is_early)?;
        }
    }
    if matches!(fault, Fault::LateOverlap)
        && let Some(jobs) = late_jobs(instance)
    {
        draft.overlap_late(jobs);
    }
    draft.text(alloc)
}
