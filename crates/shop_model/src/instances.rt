// Instances of the job shop.
ghost use Rattle.std.specs.Prelude.{◌≡◌, ◌*◌, ◌<◌, ◌≤◌, ◌↔◌, IsTrue, IsErr, IfOk, IfErr, length};
ghost use Rattle.shop_model.specs.Shop.{route_of, release_of, releases_of, operation_count};
ghost use Rattle.shop_model.specs.Limits.{IsWithinLimits, IsRouteWithin, AreRowsWithin, IsJobWithin, AreJobsWithin};
ghost use Rattle.shop_model.specs.Given.{shop_of_rows, shop_of_jobs};

use crate::limits::{MAX_JOBS, MAX_MACHINES, MAX_STEPS, MAX_TIME};
use crate::ops::{Job, Op};
use std::alloc::{AllocError as NoMemory, Global};
use std::marker::Model;

/// The list that an instance was made of: rows without releases, or jobs.
#[derive(Drop)]
enum Given {
    Rows(Vec<Vec<Op>>),
    Jobs(Vec<Job>),
}

/// Rows that `Instance::new` refused for their sizes, or for a machine or time out of range, handed back as they were
/// given.
#[derive(Drop)]
pub struct SizeFault {
    pub rows: Vec<Vec<Op>>,
}

/// Jobs that `Instance::of_jobs` refused, handed back as they were given.
#[derive(Drop)]
pub struct JobsFault {
    pub jobs: Vec<Job>,
}

/// Returns whether each operation of `route` is on one of `machines` machines and takes at most `MAX_TIME`.
fn is_route_within(machines: usize, route: &[Op]) -> bool
    ensures { IsTrue result ↔ IsRouteWithin machines route.now }
{
    route
        .iter()
        .all(|o| o.machine < machines && o.time <= MAX_TIME)
}

/// Returns whether `rows` are within the limits, each with as many operations as there are machines.
fn are_rows_within(machines: usize, rows: &[Vec<Op>]) -> bool
    ensures { IsTrue result ↔ AreRowsWithin machines rows.now }
{
    if machines < 1 || machines > MAX_MACHINES || rows.len() < 1 || rows.len() > MAX_JOBS {
        return false;
    }
    for row in rows {
        if row.len() != machines || !is_route_within(machines, row.as_slice()) {
            return false;
        }
    }
    true
}

/// Returns whether the release of `job`, the number of its operations and each operation are within the limits.
fn is_job_within(machines: usize, job: &Job) -> bool
    ensures { IsTrue result ↔ IsJobWithin machines job.now }
{
    job.release <= MAX_TIME
        && job.route.len() <= MAX_STEPS
        && is_route_within(machines, job.route.as_slice())
}

/// Returns whether the number of `jobs` and each job are within the limits.
fn are_jobs_within(machines: usize, jobs: &[Job]) -> bool
    ensures { IsTrue result ↔ AreJobsWithin machines jobs.now }
{
    if machines < 1 || machines > MAX_MACHINES || jobs.len() < 1 || jobs.len() > MAX_JOBS {
        return false;
    }
    for job in jobs {
        if !is_job_within(machines, job) {
            return false;
        }
    }
    true
}

/// An instance of the job shop (disjunctive model): a number of machines, and jobs with a release and a route each, all
/// within the limits of `MAX_JOBS` and the other constants. An instance keeps the list that it was made of, so making
/// one takes no memory.
pub struct Instance {
    machine_count: usize,
    given: Given,
}

// Not derived: a derived `Drop` would be compiled anew into each function that has an instance.
impl Drop for Instance {
    fn drop(self) {
        let Instance {
            machine_count: _,
            given: _,
        } = self;
    }
}

impl Model for Instance {
    ghost use Rattle.shop_model.specs.Shop.{Shop};

    ghost Value = { Shop };

    ghost use Rattle.shop_model.specs.{Given.shop_of_given, Limits.IsWithinLimits};

    ghost view = { λ a. shop_of_given a.machine_count a.given };

    ghost invariant = { λ a. IsWithinLimits (shop_of_given a.machine_count a.given) };
}

impl Instance {
    /// Makes the instance of `rows`, one for each job, all released at 0. Requires rows within the limits. For library
    /// callers: the program doesn't use `of_checked`.
    pub fn of_checked(machines: usize, rows: Vec<Vec<Op>>) -> Instance
        requires { AreRowsWithin machines rows.items }
        ensures { result ≡ shop_of_rows machines rows.items }
    {
        Instance {
            machine_count: machines,
            given: Given::Rows(rows),
        }
    }

    /// Makes the instance of `rows`, one for each job, all released at 0. Takes 1 to 100 machines and 1 to 1,000 rows,
    /// each with as many operations as there are machines; machines count from 0, and times are 0 to 1,000,000,000. A
    /// job may visit a machine twice and miss another. Fails outside these limits, and hands the rows back. For library
    /// callers: the program doesn't use `new`.
    pub fn new(machines: usize, rows: Vec<Vec<Op>>) -> Result<Instance, SizeFault>
        ensures refused { IsErr result ↔ (AreRowsWithin machines rows.items → ⊥) }
        ensures ok { IfOk result (λ i. i ≡ shop_of_rows machines rows.items) }
        ensures err { IfErr result (λ e. e.rows ≡ rows) }
    {
        if are_rows_within(machines, rows.as_slice()) {
            Ok(Instance::of_checked(machines, rows))
        } else {
            Err(SizeFault { rows })
        }
    }

    /// Makes the instance of `jobs`, with the limits of `new`, releases of 0 to 1,000,000,000, and routes of 0 to 100
    /// operations. Fails outside these limits, and hands the jobs back.
    pub fn of_jobs(machines: usize, jobs: Vec<Job>) -> Result<Instance, JobsFault>
        ensures refused { IsErr result ↔ (AreJobsWithin machines jobs.items → ⊥) }
        ensures ok { IfOk result (λ i. i ≡ shop_of_jobs machines jobs.items) }
        ensures err { IfErr result (λ e. e.jobs ≡ jobs) }
    {
        if are_jobs_within(machines, jobs.as_slice()) {
            Ok(Instance {
                machine_count: machines,
                given: Given::Jobs(jobs),
            })
        } else {
            Err(JobsFault { jobs })
        }
    }

    /// States for proofs: each instance is within the limits. Does nothing.
    pub fn keeps_limits(&self)
        ensures { IsWithinLimits self.now }
    {
        let _given = &self.given;
    }

    /// The number of jobs, 1 to 1,000.
    pub fn jobs(&self) -> usize
        ensures { result ≡ length self.now.jobs }
    {
        match &self.given {
            Given::Rows(rows) => rows.len(),
            Given::Jobs(jobs) => jobs.len(),
        }
    }

    /// The number of machines, 1 to 100.
    pub fn machines(&self) -> usize
        ensures { result ≡ self.now.machines }
    {
        self.machine_count
    }

    /// Counts the operations of all routes: at most 100,000.
    pub fn operations(&self) -> usize
        ensures count { result ≡ operation_count self.now }
        ensures limit { result ≤ MAX_JOBS * MAX_STEPS }
    {
        let mut count = 0;
        for j in 0..self.jobs() {
            count += self.route(j).len();
        }
        count
    }

    /// The operations of job `j`, in order. Requires a job of the instance, counted from 0.
    pub fn route(&self, j: usize) -> &[Op]
        requires { j < length self.now.jobs }
        ensures route { result.now ≡ route_of self.now j }
        ensures limits { IsWithinLimits self.now }
    {
        match &self.given {
            Given::Rows(rows) => rows[j].as_slice(),
            Given::Jobs(jobs) => jobs[j].route.as_slice(),
        }
    }

    /// The release of job `j`, in units of time. Requires a job of the instance, counted from 0.
    pub fn release(&self, j: usize) -> u64
        requires { j < length self.now.jobs }
        ensures { result ≡ release_of self.now j }
    {
        match &self.given {
            Given::Rows(_) => 0,
            Given::Jobs(jobs) => jobs[j].release,
        }
    }

    /// Lists the releases of the jobs, in order, in units of time. Fails with `NoMemory` if memory runs out.
    pub fn releases(&self, alloc: Global) -> Result<Vec<u64>, NoMemory>
        ensures { IfOk result (λ v. v.items ≡ releases_of self.now) }
    {
        let mut releases = Vec::with_capacity(alloc, self.jobs())?;
        for j in 0..self.jobs() {
            releases.push(self.release(j))?;
        }
        Ok(releases)
    }
}
