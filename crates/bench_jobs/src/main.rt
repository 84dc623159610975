// A benchmark: the jobs that users of an engine wait for, on fresh instances that a seed makes. `bench_jobs KIND SEED`
// does the work of a kind, and prints the kind and a digest of all that the engine answered. It looks at no clock: who
// runs it does.
#![tactic(auto)]

mod digests;
mod instances;
mod numbers;
mod schedules;
mod tasks;
mod working;

use crate::working::digest_of;
use anyhow::{Context, Result};
use std::env::args;

fn main(rt: HostRuntime) -> Result<()> {
    let mut words = args(&rt)?.skip(1);
    let kind = words.next().context("a kind of work, then a seed")?;
    let seed = words.next().context("a seed behind the kind of work")?;
    let seed = seed.as_str().parse::<u64>().context("a seed is a number")?;
    let digest = digest_of(rt.alloc(), kind.as_str(), seed)?;
    println!(rt; "{kind} {digest:016x}")?;
    Ok(())
}
