// The operations of each machine that a word has not dispatched, with their heads, times and tails, in lists that have
// room for all operations of their machine.
ghost use Rattle.std.specs.Prelude.{◌≡◌, ℕ, ◌+◌, ◌^◌, ◌≤◌, ◌<◌, [], length, slice_index_or, All, IfOk};
ghost use Rattle.shop_model.specs.Shop.{no_op};
ghost use Rattle.shop_bound.specs.inner.MachineLists.{HaveRoomFor, KeepRoom};
ghost use Rattle.shop_bound.specs.inner.MachineLists.{visits, rows_in, visits_in, AreVisits, HaveRoom};
ghost use Rattle.shop_bound.specs.{inner.PlacedWords.IsOfWord, inner.Unplaced.{Adds, AreUnplaced, CanGoOn}};

use crate::heads_and_tails::total_time;
use crate::triples::Triple;
use shop_model::{Instance, Op, Placement};
use std::alloc::{AllocError as NoMemory, Global};

/// Adds to `counts` how often `route` comes to each machine.
fn add_visits(counts: &mut [usize], route: &[Op])
    requires machines { (k : ℕ) → (slice_index_or route.now k no_op).machine < length counts.old }
    requires small { All (λ n. n + length route.now < 2 ^ 64) counts.old }
    ensures { (m : ℕ) → m < length counts.old
        → slice_index_or counts.new m 0 ≡ slice_index_or counts.old m 0 + visits m route.now }
{
    for op in route {
        counts[op.machine] += 1;
    }
}

/// Counts how often the routes come to each machine. Fails with `NoMemory` if memory runs out.
pub(crate) fn count_visits(alloc: Global, instance: &Instance) -> Result<Vec<usize>, NoMemory>
    ensures { IfOk result (λ v. AreVisits instance.now v.items) }
{
    let mut counts = vec![in alloc; 0; instance.machines()]?;
    for j in 0..instance.jobs() {
        add_visits(counts.as_mut_slice(), instance.route(j));
    }
    Ok(counts)
}

/// Adds the operations in `rest`, the rest of a job's route, to the lists of their machines. The job is ready at
/// `ready`, and machine m is free at `free[m]`.
fn add_rest(lists: &mut [Vec<Triple>], rest: &[Op], ready: u64, free: &[u64])
    requires rest { CanGoOn free.now ready rest.now }
    requires machines { length lists.old ≡ length free.now }
    requires room { HaveRoomFor lists.old rest.now }
    ensures added { Adds (rows_in lists.old) (rows_in lists.new) free.now ready rest.now }
    ensures room { KeepRoom lists.old lists.new }
{
    let mut tail = total_time(rest);
    let mut ready = ready;
    for op in rest {
        let head = ready.max(free[op.machine]);
        let time = op.time;
        tail -= time;
        lists[op.machine].push(Triple { head, time, tail }).unwrap();
        ready = head + time;
    }
}

/// Replaces what is in `lists`, one for each machine, by the unplaced operations, job by job: one pass through all
/// routes. Each list has room for all operations of its machine.
pub(crate) fn list_unplaced(lists: &mut [Vec<Triple>], instance: &Instance, placement: &Placement)
    requires word { IsOfWord instance.now placement.now }
    requires room { HaveRoom instance.now lists.old }
    ensures unplaced { AreUnplaced instance.now placement.now (rows_in lists.new) }
    ensures few { (m : ℕ) → m < instance.now.machines
        → length (slice_index_or (rows_in lists.new) m []) ≤ visits_in instance.now m }
    ensures room { HaveRoom instance.now lists.new }
{
    for m in 0..lists.len() {
        lists[m].clear();
    }
    let free = placement.machines_free();
    for j in 0..instance.jobs() {
        let rest = &instance.route(j)[placement.steps(j)..];
        add_rest(lists, rest, placement.ready(j), free);
    }
}
