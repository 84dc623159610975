// Heads: when each operation that a word has not dispatched could begin at the earliest. Tails: the total time of the
// later operations of an operation's route.
ghost use Rattle.std.specs.{Prelude.{◌≡◌, ◌<◌, IfOk, length, map, sum_by}, List.range_with_len};
ghost use Rattle.shop_model.specs.Word.{IsWord};
ghost use Rattle.shop_bound.specs.Heads.{heads_at, tail_in, AreTails, AreTimesSmall, TellsHeads};
ghost use Rattle.shop_bound.specs.inner.{HeadRows.AreHeadsOfJob, PlacedWords.IsOfWord};

use shop_model::{Instance, Op, Placement, Word};
use std::alloc::{AllocError as NoMemory, Global};
use std::marker::Model;

/// Computes the head of each operation of job `j`, in order of its route; `None` for each operation that is placed.
/// Fails with `NoMemory` if memory runs out.
fn heads_of_job(
    alloc: Global,
    instance: &Instance,
    placement: &Placement,
    j: usize,
) -> Result<Vec<Option<u64>>, NoMemory>
    requires job { j < length instance.now.jobs }
    requires word { IsOfWord instance.now placement.now }
    ensures { IfOk result (λ v. AreHeadsOfJob instance.now placement.now j v.items) }
{
    let route = instance.route(j);
    let placed = placement.steps(j);
    let mut ready = placement.ready(j);
    let mut heads = Vec::with_capacity(alloc, route.len())?;
    for k in 0..route.len() {
        if k < placed {
            heads.push(None).unwrap();
            continue;
        }
        let head = ready.max(placement.free(route[k].machine));
        heads.push(Some(head)).unwrap();
        ready = head + route[k].time;
    }
    Ok(heads)
}

/// The head of each operation that a word has not dispatched: the length of the longest path to the operation in the
/// disjunctive model. For library callers: the program doesn't use `Heads`.
#[derive(Drop)]
pub struct Heads {
    rows: Vec<Vec<Option<u64>>>,
}

impl Model for Heads {
    ghost use Rattle.std.specs.Prelude.{List, Option, ℕ, map};

    ghost Value = { List (List (Option ℕ)) };

    ghost view = { λ a. map (λ row. row.items) a.rows.items };
}

impl Heads {
    /// Finds the head of each operation that `word`, a word of `instance`, has not dispatched. Fails with `NoMemory` if
    /// memory runs out.
    pub fn of(alloc: Global, instance: &Instance, word: &Word) -> Result<Heads, NoMemory>
        requires { IsWord instance.now word.now }
        ensures { IfOk result (λ h. TellsHeads instance.now word.now h) }
    {
        let placement = Placement::of(alloc, instance, word)?;
        let mut rows = Vec::with_capacity(alloc, instance.jobs())?;
        for j in 0..instance.jobs() {
            rows.push(heads_of_job(alloc, instance, &placement, j)?)
                .unwrap();
        }
        Ok(Heads { rows })
    }

    /// The head of step `k` of job `j`; `None` if the word has dispatched the step or the instance lacks it.
    pub fn head(&self, j: usize, k: usize) -> Option<u64>
        ensures { result ≡ heads_at self.now j k }
    {
        *self.rows.get(j)?.get(k)?
    }
}

/// Adds up the times of the operations of `route`. Their sum is below 2^50.
pub fn total_time(route: &[Op]) -> u64
    requires { AreTimesSmall route.now }
    ensures { result ≡ sum_by (λ o. o.time) route.now }
{
    route.iter().map(|op| op.time).sum()
}

/// Computes the tail of each operation of `route`, in order. Fails with `NoMemory` if memory runs out.
fn tails_of_route(alloc: Global, route: &[Op]) -> Result<Vec<u64>, NoMemory>
    requires { AreTimesSmall route.now }
    ensures { IfOk result (λ v. v.items ≡ map (tail_in route.now) (range_with_len 0 (length route.now))) }
{
    let mut tails = Vec::with_capacity(alloc, route.len())?;
    let mut tail = total_time(route);
    for op in route {
        tail -= op.time;
        tails.push(tail).unwrap();
    }
    Ok(tails)
}

/// Computes the tail of each operation, one row for each job: the sum of the times of the later steps of its route.
/// Fails with `NoMemory` if memory runs out. For library callers: the program doesn't use `tails`.
pub fn tails(alloc: Global, instance: &Instance) -> Result<Vec<Vec<u64>>, NoMemory>
    ensures { IfOk result (λ v. AreTails instance.now (map (λ row. row.items) v.items)) }
{
    let mut rows = Vec::with_capacity(alloc, instance.jobs())?;
    for j in 0..instance.jobs() {
        rows.push(tails_of_route(alloc, instance.route(j))?)
            .unwrap();
    }
    Ok(rows)
}
