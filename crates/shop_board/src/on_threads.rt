// Calls a function at each of several jobs, on a thread for each, while the calling thread only waits.
ghost use Rattle.std.specs.{Prelude.{◌≡◌, ◌∷◌, [], vec_len, IfOk}, Fork.{AcceptsJobs, GivesJobs}, Fork.Halves.GivesFor};
ghost use denote.Param.Send.{IsSync, IsSend};

use std::alloc::{AllocError as NoMemory, Global};
use std::thread;
use std::thread::Threads;

/// Calls `f` at `job`. Its clause is that of `start_each` for a single job.
fn call<J: Drop, X: Drop, F: Fn(J) -> X>(f: &F, job: J) -> X
    requires { AcceptsJobs F.Fn f.now (job ∷ []) }
    ensures { GivesFor F.Fn f.now (job ∷ []) (result ∷ []) }
{
    f(job)
}

/// Starts a thread that calls `f` at the last of `jobs`, then those for the others, and waits for all of them.
#[cycle(starts)]
fn start_each<R: Threads + Sync, J: Send + Drop, X: Send + Drop, F: Fn(J) -> X + Sync>(
    rt: &R,
    alloc: Global,
    mut jobs: Vec<J>,
    f: &F,
) -> Result<Vec<X>, NoMemory>
    requires { AcceptsJobs F.Fn f.now jobs.items }
    ensures { IfOk result (λ v. GivesFor F.Fn f.now jobs.items v.items) }
{
    let Some(job) = jobs.pop() else {
        return Ok(Vec::new(alloc));
    };
    let last = move || -> X
        requires { IsSync F.row × IsSend J.row × IsSend X.row × AcceptsJobs F.Fn f.now (job ∷ []) }
        ensures { GivesFor F.Fn f.entry.now (job ∷ []) (result ∷ []) }
    { call(f, job) };
    let others = move || -> Result<Vec<X>, NoMemory>
        requires { IsSync R.row × IsSync F.row × IsSend J.row × IsSend X.row × AcceptsJobs F.Fn f.now jobs.items }
        ensures { IfOk result (λ v. GivesFor F.Fn f.entry.now jobs.items v.items) }
    { start_each(rt, alloc, jobs, f) };
    let (found, all) = thread::join(rt, last, others);
    let mut all = all?;
    all.push(found)?;
    Ok(all)
}

/// Calls `f` at each of `jobs`, on a thread of its own where one can start, and returns the results in order. A lone
/// job is done on the calling thread. Else the calling thread starts one thread after the other, and then waits for all
/// of them. It computes nothing meanwhile: the system may lay a new thread on the processor of the one that starts it,
/// where it begins late if that one goes on. If no thread can start for a job, the calling thread does the job, once
/// the threads that it started afterwards have ended. Each job takes some of the calling thread's stack. Fails with
/// `NoMemory` if memory runs out.
pub fn map_on_threads<R: Threads + Sync, J: Send + Drop, X: Send + Drop, F: Fn(J) -> X + Sync>(
    rt: &R,
    alloc: Global,
    jobs: Vec<J>,
    f: &F,
) -> Result<Vec<X>, NoMemory>
    requires { AcceptsJobs F.Fn f.now jobs.items }
    ensures len { IfOk result (λ v. vec_len v ≡ vec_len jobs) }
    ensures each { IfOk result (λ v. GivesJobs F.Fn f.now jobs.items v.items) }
{
    if jobs.len() < 2 {
        return thread::map_vec(rt, jobs, f);
    }
    start_each(rt, alloc, jobs, f)
}
