// The lower bound of a word: the greatest of the ends of its operations and of the machines' one-machine bounds.
ghost use Rattle.std.specs.Prelude.{◌≡◌, ℕ, ◌+◌, ◌<◌, ◌≤◌, ◌^◌, max, length, slice_index, vec_len, IfOk, IsTrue};
ghost use Rattle.shop_model.specs.Word.{IsWord, placing};
ghost use Rattle.shop_bound.specs.{Bound.{lb, triples_on, waiting}, Laws.{IsLower, EndsThereIfFull}};
ghost use Rattle.shop_bound.specs.{OneMachine.{one, greatest_of, IsSmall}, inner.Unplaced.IsGreatestBound};
ghost use Rattle.shop_bound.specs.inner.{BoundRooms.IsRoomFor, PlacedWords.IsOfWord, Thresholds.span_above};

use crate::machine_lists::{count_visits, list_unplaced};
use crate::schedules::Jackson;
use crate::triples::Triple;
use shop_model::{Instance, Placement, Word};
use std::alloc::{AllocError as NoMemory, Global};
use std::cmp::Reverse;

/// Memory to bound words of an instance: for the waiting operations of each machine, and for the preemptive schedule of
/// any machine.
#[derive(Drop)]
pub(crate) struct BoundRoom {
    lists: Vec<Vec<Triple>>,
    jackson: Jackson,
}

/// The most leaps that are tried. On random instances, one to three settle a machine that has no more to do than
/// another one. Otherwise Jackson's schedule is made, so the worst case of n operations is n log n steps.
const LEAPS: usize = 4;

/// Returns the greatest head in `triples`; 0 if `triples` is empty.
fn greatest_head(triples: &[Triple]) -> u64
    ensures { result ≡ greatest_of (λ t. t.head) triples.now }
{
    triples.iter().map(|t| t.head).max().unwrap_or(0)
}

/// Returns the load from `from` on: when the last of the operations with a head of at least `from` ends, tail included,
/// if the machine serves these from 0 on, one after the other, in the order of `triples`; 0 if there are none. So no
/// span from a head of at least `from` is greater than that head and the load.
fn load_from(triples: &[Triple], from: u64) -> u64
    requires { IsSmall triples.now }
    ensures covers { (head tail : ℕ) → from ≤ head → span_above triples.now head tail ≤ head + result }
    ensures small { result < 2 ^ 50 }
{
    let mut time = 0;
    let mut load = 0;
    for t in triples {
        if from <= t.head {
            time += t.time;
            load = load.max(time + t.tail);
        }
    }
    load
}

/// Returns `true` only if the one-machine bound of `triples` is at most `bound`. The load never rises with the head
/// from which on it is taken, so one load settles all heads up to `bound` less that load, and the next load is taken
/// from one above that.
fn is_settled(triples: &[Triple], bound: u64) -> bool
    requires { IsSmall triples.now }
    ensures { IsTrue result → one triples.now ≤ bound }
{
    let greatest = greatest_head(triples);
    let mut from = 0;
    for _ in 0..LEAPS {
        let load = load_from(triples, from);
        if greatest + load <= bound {
            return true;
        }
        if bound < from + load {
            return false;
        }
        from = bound - load + 1;
    }
    false
}

/// Returns the greater of `bound` and the one-machine bound of `triples`. Makes Jackson's schedule only if the times
/// alone are greater than `bound`, or a few passes don't show that the one-machine bound is at most `bound`. These
/// passes go over `triples` by nonincreasing tail, in which order loads are least. May change the order of `triples`.
fn raise(jackson: &mut Jackson, triples: &mut [Triple], bound: u64) -> u64
    requires room { length triples.old ≤ jackson.old.room }
    requires small { IsSmall triples.old }
    ensures bound { result ≡ max bound (one triples.old) }
    ensures room { jackson.new.room ≡ jackson.old.room }
{
    let total: u64 = triples.iter().map(|t| t.time).sum();
    if total <= bound {
        triples.sort_unstable_by_key(|t| Reverse(t.tail));
        if is_settled(triples, bound) {
            return bound;
        }
    }
    jackson.bound(triples).max(bound)
}

impl BoundRoom {
    /// Makes room for all operations of `instance`. Fails with `NoMemory` if memory runs out.
    pub(crate) fn of(alloc: Global, instance: &Instance) -> Result<BoundRoom, NoMemory>
        ensures { IfOk result (IsRoomFor instance.now) }
    {
        let counts = count_visits(alloc, instance)?;
        let mut lists = Vec::with_capacity(alloc, counts.len())?;
        for &count in counts.as_slice() {
            lists.push(Vec::with_capacity(alloc, count)?)?;
        }
        let most = counts.iter().copied().max().unwrap_or(0);
        let jackson = Jackson::with_room(alloc, most)?;
        Ok(BoundRoom { lists, jackson })
    }

    /// Returns the lower bound of the word in `placement`: the greatest of the times when machines are free and of the
    /// one-machine bounds of each machine's waiting operations. Takes no memory.
    pub(crate) fn bound(&mut self, instance: &Instance, placement: &Placement) -> u64
        requires room { IsRoomFor instance.now self.old }
        requires word { IsOfWord instance.now placement.now }
        ensures bound { IsGreatestBound instance.now placement.now result }
        ensures room { IsRoomFor instance.now self.new }
    {
        instance.keeps_limits();
        list_unplaced(self.lists.as_mut_slice(), instance, placement);
        let mut bound = 0;
        for machine in 0..instance.machines() {
            bound = bound.max(placement.free(machine));
            let triples = self.lists[machine].as_mut_slice();
            bound = raise(&mut self.jackson, triples, bound);
        }
        bound
    }
}

/// Computes the lower bound, below 2^50, of `word`, a word of `instance`: the greatest of its operations' ends and the
/// waiting operations' one-machine bounds. No feasible schedule that begins each machine with `word`, in order, ends
/// earlier. The schedule of a full `word` is feasible and ends there. Fails with `NoMemory` if memory runs out.
pub fn lower_bound(alloc: Global, instance: &Instance, word: &Word) -> Result<u64, NoMemory>
    requires { IsWord instance.now word.now }
    ensures bound { IfOk result (λ b. b ≡ lb instance.now word.now) }
    ensures lower { IfOk result (λ b. IsLower instance.now word.now b) }
    ensures full { IfOk result (λ b. EndsThereIfFull instance.now word.now b) }
    ensures small { IfOk result (λ b. b < 2 ^ 50) }
{
    instance.keeps_limits();
    let placement = Placement::of(alloc, instance, word)?;
    let mut room = BoundRoom::of(alloc, instance)?;
    Ok(room.bound(instance, &placement))
}

/// Computes for each machine the one-machine bound (Carlier 1982), in units of time, of the operations that `word`, a
/// word of `instance`, has not dispatched: the greatest end, tail included, of Jackson's preemptive schedule of them; 0
/// for a machine with none of them. Fails with `NoMemory` if memory runs out.
pub fn machine_bounds(alloc: Global, instance: &Instance, word: &Word) -> Result<Vec<u64>, NoMemory>
    requires { IsWord instance.now word.now }
    ensures machines { IfOk result (λ v. vec_len v ≡ instance.now.machines) }
    ensures bounds { IfOk result (λ v. (m : ℕ) → m < instance.now.machines
        → slice_index v.items m ≡ one (triples_on m (waiting instance.now (placing instance.now word.now)))) }
{
    instance.keeps_limits();
    let placement = Placement::of(alloc, instance, word)?;
    let BoundRoom {
        mut lists,
        mut jackson,
    } = BoundRoom::of(alloc, instance)?;
    let lists = lists.as_mut_slice();
    list_unplaced(lists, instance, &placement);
    let mut bounds = Vec::with_capacity(alloc, lists.len())?;
    for m in 0..lists.len() {
        bounds.push(jackson.bound(lists[m].as_slice())).unwrap();
    }
    Ok(bounds)
}
