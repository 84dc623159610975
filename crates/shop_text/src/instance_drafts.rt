// The number lines of a part, and the instance that is being read of them, row by row.
ghost use Rattle.std.specs.Prelude.{◌≡◌, ◌*◌, ◌%◌, ◌<◌, ◌≤◌, ◌↔◌, ◌∷◌, ◌++◌, ◌==◌, [], IsTrue, false, nat_le, IfOk};
ghost use Rattle.std.specs.{Prelude.{All, List, length, map}, List.list_all};
ghost use Rattle.shop_model.specs.{Given.job_as_given, Limits.{IsJobWithin, IsRouteWithin}};
ghost use Rattle.shop_text.specs.Formats.{pairs_fault, pairs_of, orlib_fault, routes_fault, orlib_job, routes_job};
ghost use Rattle.shop_text.specs.{Formats.{taillard_job, grammar_of}, Shapes.IsSize, inner.DraftLimits.IsDraftWithin};
ghost use Rattle.shop_text.specs.inner.LineReading.{JudgesRow, IsSizeIn, times_row_fault, machines_row_fault};

use crate::faults::ReadFault;
use crate::formats::Format;
use shop_model::{Instance, Job, MAX_JOBS, MAX_MACHINES, MAX_STEPS, MAX_TIME, Op};
use std::alloc::Global;
use std::mem;

/// Reads the numbers of jobs and machines from a size line, which has two numbers, in `taillard` up to six. Fails with
/// `BadShape` if it has more or fewer, or with `BadSize` if jobs or machines are outside the limits.
fn size_of(format: Format, line: usize, row: &[u64]) -> Result<(usize, usize), ReadFault>
    ensures judged { JudgesRow result line ((grammar_of format).refuses [] row.now) (IsSizeIn row.now) }
    ensures within { IfOk result (λ size. IsSize size.0 size.1) }
{
    let most = match format {
        Format::Orlib | Format::Routes => 2,
        Format::Taillard => 6,
    };
    if row.len() < 2 || most < row.len() {
        return Err(ReadFault::BadShape { line });
    }
    let jobs = row[0];
    let machines = row[1];
    if jobs < 1 || jobs > MAX_JOBS as u64 || machines < 1 || machines > MAX_MACHINES as u64 {
        return Err(ReadFault::BadSize { line });
    }
    Ok((jobs as usize, machines as usize))
}

/// Reads the operations of a job from `row`, the machine and the time of each in turn. Fails with the first fault from
/// the left, or with `NoMemory` if memory runs out.
fn route_of(alloc: Global, line: usize, machines: usize, row: &[u64]) -> Result<Vec<Op>, ReadFault>
    requires even { length row.now % 2 ≡ 0 }
    requires machines { machines ≤ MAX_MACHINES }
    ensures judged { JudgesRow result line (pairs_fault machines row.now) (λ route. route.items ≡ pairs_of row.now) }
    ensures within { IfOk result (λ route. IsRouteWithin machines route.items) }
    ensures len { IfOk result (λ route. 2 * length route.items ≡ length row.now) }
{
    let steps = row.len() / 2;
    let mut route = Vec::with_capacity(alloc, steps)?;
    for i in 0..steps {
        let machine = row[2 * i];
        let time = row[2 * i + 1];
        if machine >= machines as u64 {
            return Err(ReadFault::BadMachine { line });
        }
        if time > MAX_TIME {
            return Err(ReadFault::BadTime { line });
        }
        let machine = machine as usize;
        route.push(Op { machine, time })?;
    }
    Ok(route)
}

/// Reads the job of a row with a pair of machine and time for each machine. Fails with the fault of the row, or with
/// `NoMemory` if memory runs out.
fn job_of_pairs(alloc: Global, line: usize, machines: usize, row: &[u64]) -> Result<Job, ReadFault>
    requires { machines ≤ MAX_MACHINES }
    ensures judged { JudgesRow result line (orlib_fault machines row.now)
        (λ job. job_as_given job ≡ orlib_job row.now) }
    ensures within { IfOk result (λ job. IsJobWithin machines job) }
{
    if row.len() != 2 * machines {
        return Err(ReadFault::BadRow { line });
    }
    let route = route_of(alloc, line, machines, row)?;
    Ok(Job { release: 0, route })
}

/// Reads the job of a row with its release and then a pair of machine and time for each step. Fails with the fault of
/// the row, or with `NoMemory` if memory runs out.
fn released_job(alloc: Global, line: usize, machines: usize, row: &[u64]) -> Result<Job, ReadFault>
    requires { machines ≤ MAX_MACHINES }
    ensures judged { JudgesRow result line (routes_fault machines row.now)
        (λ job. job_as_given job ≡ routes_job row.now) }
    ensures within { IfOk result (λ job. IsJobWithin machines job) }
{
    if row.len() % 2 == 0 || row.len() > 2 * MAX_STEPS + 1 {
        return Err(ReadFault::BadRow { line });
    }
    let release = row[0];
    if release > MAX_TIME {
        return Err(ReadFault::BadTime { line });
    }
    let route = route_of(alloc, line, machines, &row[1..])?;
    Ok(Job { release, route })
}

/// Returns whether each time in `row` is at most `MAX_TIME`.
fn are_times(row: &[u64]) -> bool
    ensures tested { result ≡ list_all (λ time. nat_le time MAX_TIME) row.now }
    ensures each { IsTrue result ↔ All (λ time. time ≤ MAX_TIME) row.now }
{
    row.iter().all(|time| *time <= MAX_TIME)
}

/// Reads a row of times, one for each machine. Fails with the fault of the row, or with `NoMemory` if memory runs out.
fn times_of(alloc: Global, line: usize, machines: usize, row: &[u64]) -> Result<Vec<u64>, ReadFault>
    ensures judged { JudgesRow result line (times_row_fault machines row.now) (λ times. times.items ≡ row.now) }
    ensures within { IfOk result (λ times. All (λ time. time ≤ MAX_TIME) times.items) }
    ensures len { IfOk result (λ times. length times.items ≡ machines) }
{
    if row.len() != machines {
        return Err(ReadFault::BadRow { line });
    }
    if !are_times(row) {
        return Err(ReadFault::BadTime { line });
    }
    let times = Vec::from_slice(alloc, row)?;
    Ok(times)
}

/// Makes the job of a row of times and its row of machines, which count from 1. Fails with the fault of the row of
/// machines, or with `NoMemory` if memory runs out.
fn job_of_machines(
    alloc: Global,
    line: usize,
    machines: usize,
    times: &[u64],
    row: &[u64],
) -> Result<Job, ReadFault>
    requires machines { machines ≤ MAX_MACHINES }
    requires times { All (λ time. time ≤ MAX_TIME) times.now }
    requires len { length times.now ≡ machines }
    ensures judged { JudgesRow result line (machines_row_fault machines row.now)
        (λ job. job_as_given job ≡ taillard_job (times.now, row.now)) }
    ensures within { IfOk result (λ job. IsJobWithin machines job) }
{
    if row.len() != machines {
        return Err(ReadFault::BadRow { line });
    }
    let mut route = Vec::with_capacity(alloc, machines)?;
    for i in 0..machines {
        let machine = row[i];
        if machine < 1 || machine > machines as u64 {
            return Err(ReadFault::BadMachine { line });
        }
        let (machine, time) = (machine as usize - 1, times[i]);
        route.push(Op { machine, time })?;
    }
    Ok(Job { release: 0, route })
}

/// What is read of an instance so far: its size, its jobs and, in `taillard`, its rows of times. Before the size line
/// no jobs are wanted.
#[derive(Drop)]
pub(crate) struct Draft {
    jobs_wanted: usize,
    machines: usize,
    times: Vec<Vec<u64>>,
    jobs: Vec<Job>,
    ghost within: { IsDraftWithin jobs_wanted machines times.items jobs.items },
}

impl Draft {
    ghost use Rattle.std.specs.Prelude.{vec_len};
    ghost use Rattle.shop_text.specs.{inner.LineReading.capped, Grammar.Row};
    ghost use Rattle.shop_text.specs.inner.Drafts.{IsDraft, wants_times, jobs_drafted, PushesJob, TakesRow};

    /// Makes the draft of an instance of which no line is read.
    pub(crate) fn new(alloc: Global) -> Draft
        ensures { result.jobs_wanted ≡ 0 }
    {
        Draft {
            jobs_wanted: 0,
            machines: 0,
            times: Vec::new(alloc),
            jobs: Vec::new(alloc),
        }
    }

    /// Returns whether the size line is still to come.
    pub(crate) fn is_fresh(&self) -> bool
        ensures { result ≡ (self.now.jobs_wanted == 0) }
    {
        self.jobs_wanted == 0
    }

    /// Returns whether `format` skips a text line at this place of the instance: before the size line, and in
    /// `taillard` before each matrix.
    pub(crate) fn skips_text(&self, format: Format) -> bool
        ensures { (rows : List Row) → IsDraft format self.now rows → result ≡ (grammar_of format).skips rows }
    {
        match format {
            Format::Taillard if self.times.is_empty() => true,
            Format::Taillard => self.jobs.is_empty() && self.times.len() == self.jobs_wanted,
            Format::Orlib | Format::Routes => self.is_fresh(),
        }
    }

    /// Returns whether the next row is one of times.
    fn wants_times(&self, format: Format) -> bool
        ensures { result ≡ wants_times format self.now.jobs_wanted (vec_len self.now.times) }
    {
        format == Format::Taillard && self.times.len() < self.jobs_wanted
    }

    /// Reads the job of the number line `row`, which is line `line` of the text. Fails with the first fault of the row,
    /// or with `NoMemory` if memory runs out.
    fn job(&self, alloc: Global, format: Format, line: usize, row: &[u64]) -> Result<Job, ReadFault>
        requires some { 0 < self.now.jobs_wanted }
        requires times { wants_times format self.now.jobs_wanted (vec_len self.now.times) ≡ false }
        ensures judged { (rows : List Row) (written : Row) → IsDraft format self.now rows → row.now ≡ map capped written
            → JudgesRow result line ((grammar_of format).refuses rows written)
            (λ job. map job_as_given (self.now.jobs.items ++ job ∷ [])
            ≡ jobs_drafted format (rows ++ written ∷ [])) }
        ensures within { IfOk result (λ job. IsJobWithin self.now.machines job) }
    {
        match format {
            Format::Orlib => job_of_pairs(alloc, line, self.machines, row),
            Format::Routes => released_job(alloc, line, self.machines, row),
            Format::Taillard => {
                let times = self.times[self.jobs.len()].as_slice();
                job_of_machines(alloc, line, self.machines, times, row)
            }
        }
    }

    /// Adds `job`. If the job is the last one, returns the instance, and the draft is empty again. Fails with
    /// `NoMemory` if memory runs out.
    fn push_job(&mut self, alloc: Global, job: Job) -> Result<Option<Instance>, ReadFault>
        requires some { 0 < self.old.jobs_wanted }
        requires within { IsJobWithin self.old.machines job }
        ensures { PushesJob self.old self.new job result }
    {
        self.jobs.push(job)?;
        if self.jobs.len() < self.jobs_wanted {
            return Ok(None);
        }
        let jobs = mem::replace(&mut self.jobs, Vec::new(alloc));
        self.times.clear();
        self.jobs_wanted = 0;
        Ok(Some(Instance::of_jobs(self.machines, jobs).unwrap()))
    }

    /// Reads the number line `row`. Returns the instance if this was its last row. Fails with the fault of the line, or
    /// with `NoMemory` if memory runs out.
    pub(crate) fn take_row(
        &mut self,
        alloc: Global,
        format: Format,
        line: usize,
        row: &[u64],
    ) -> Result<Option<Instance>, ReadFault>
        ensures { (rows : List Row) (written : Row) → IsDraft format self.old rows → row.now ≡ map capped written
            → TakesRow format rows written line self.new result }
    {
        if self.jobs_wanted == 0 {
            let (jobs, machines) = size_of(format, line, row)?;
            self.jobs_wanted = jobs;
            self.machines = machines;
            return Ok(None);
        }
        if self.wants_times(format) {
            let times = times_of(alloc, line, self.machines, row)?;
            self.times.push(times)?;
            return Ok(None);
        }
        let job = self.job(alloc, format, line, row)?;
        self.push_job(alloc, job)
    }
}
