// Lists the operations of each machine by nonincreasing tail. The list at index r is that of the machine of rank r.
ghost use Rattle.std.specs.Prelude.{ℕ, ◌<◌, slice_index_or, IfOk, OnOk, length, map};
ghost use Rattle.shop_model.specs.Shop.{no_op};
ghost use Rattle.shop_bound.specs.Heads.{AreTimesSmall};
ghost use Rattle.shop_layout.specs.{Ranks.{AreRanks, ranked, ranked_op}, Slots.AreMachineSlots, inner.Vectors.items_in};
ghost use Rattle.shop_layout.specs.inner.MachineLists.{AddsOperations};

use shop_bound::total_time;
use shop_model::{Instance, Op};
use std::alloc::{AllocError as NoMemory, Global};
use std::cmp::Reverse;

/// An operation on its machine: its job and its step, both counted from 0, its time and its tail.
#[derive(Clone, Copy, Debug, PartialEq, Eq)]
pub struct Slot {
    pub job: usize,
    pub step: usize,
    pub time: u64,
    pub tail: u64,
}

/// Adds the operations of `route`, the route of `job`, to the lists of their machines, each at its machine's rank.
/// Fails with `NoMemory` if memory runs out.
fn add_operations(
    lists: &mut [Vec<Slot>],
    route: &[Op],
    job: usize,
    ranks: &[usize],
) -> Result<(), NoMemory>
    requires times { AreTimesSmall route.now }
    requires machines { (k : ℕ) → (slice_index_or route.now k no_op).machine < length lists.old }
    requires ranks { AreRanks (length lists.old) ranks.now }
    ensures { OnOk result (AddsOperations (items_in lists.old) (items_in lists.new)
        (map (ranked_op ranks.now) route.now) job) }
{
    let mut tail = total_time(route);
    for k in 0..route.len() {
        let op = route[k];
        tail -= op.time;
        let slots = &mut lists[ranks[op.machine]];
        slots.push(Slot {
            job,
            step: k,
            time: op.time,
            tail,
        })?;
    }
    Ok(())
}

/// Lists the operations of each machine by nonincreasing tail, the machines by rank. Fails with `NoMemory` if memory
/// runs out.
pub(crate) fn machine_slots(
    alloc: Global,
    instance: &Instance,
    ranks: &[usize],
) -> Result<Vec<Vec<Slot>>, NoMemory>
    requires { AreRanks instance.now.machines ranks.now }
    ensures { IfOk result (λ v. AreMachineSlots (ranked ranks.now instance.now) (map (λ slots. slots.items) v.items)) }
{
    let mut lists = Vec::with_capacity(alloc, instance.machines())?;
    for _ in 0..instance.machines() {
        lists
            .push(Vec::with_capacity(alloc, instance.jobs())?)
            .unwrap();
    }
    for j in 0..instance.jobs() {
        add_operations(lists.as_mut_slice(), instance.route(j), j, ranks)?;
    }
    for m in 0..lists.len() {
        lists[m].sort_by_key(|slot| Reverse(slot.tail))?;
    }
    Ok(lists)
}
