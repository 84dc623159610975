// `Positions`: the operations of an instance by position.
ghost use Rattle.std.specs.Prelude.{◌≡◌, ℕ, ◌+◌, ◌-◌, ◌*◌, ◌/◌, ◌%◌, ◌<◌, ◌≤◌, ◌^◌, All, IfOk, OnOk, List, length, map};
ghost use Rattle.std.specs.Prelude.{slice_index};
ghost use Rattle.shop_model.specs.declared.limits.TheConstants.{MAX_JOBS, MAX_MACHINES, MAX_STEPS};
ghost use Rattle.shop_layout.specs.{Positions.{AreEven, AreMachinesOf, IsLaidOut}, Ranks.{AreRanks, ranked}};
ghost use Rattle.shop_layout.specs.{Slots.AreMachineSlots, inner.Vectors.items_in};
ghost use Rattle.shop_layout.specs.inner.Layings.{AreAdded, AreApart, AreCells, AreNoted, AreShorter};
ghost use Rattle.shop_layout.specs.inner.Layings.{AreStepPositions, HaveRoom, IsInRows};

use crate::slots::{Slot, machine_slots};
use shop_model::Instance;
use std::alloc::{AllocError as NoMemory, Global};
use std::marker::Model;

/// The operations of an instance by position: machine after machine by rank, each in whole blocks of eight positions
/// with padding. A machine's operations run by nonincreasing tail down the columns of its blocks. All rows call a
/// machine by its rank.
#[derive(Drop)]
pub(crate) struct Positions {
    /// the job of the operation at each position, 0 at padding
    pub(crate) jobs: Vec<u32>,
    /// the step of the operation at each position, 0 at padding; read only while the layout is made
    pub(crate) steps: Vec<u32>,
    /// the time of the operation at each position, 0 at padding
    pub(crate) times: Vec<u64>,
    /// the tail of the operation at each position, 0 at padding; read only while the layout is made
    pub(crate) tails: Vec<u64>,
    /// the position of each operation, by job and step; read only while the layout is made
    pub(crate) step_positions: Vec<Vec<u32>>,
    /// the first block of each machine, then the number of all blocks
    pub(crate) blocks: Vec<u32>,
    /// the machine of each position
    pub(crate) machines: Vec<u32>,
}

impl Model for Positions {
    ghost use Rattle.std.specs.Prelude.{◌^◌, ◌<◌, length};
    ghost use Rattle.shop_layout.specs.{Positions.LayoutState, inner.Vectors.items_in};

    ghost Value = { LayoutState };

    ghost view = { λ l. record {
      jobs = l.jobs.items;
      steps = l.steps.items;
      times = l.times.items;
      tails = l.tails.items;
      step_positions = items_in l.step_positions.items;
      blocks = l.blocks.items;
      machines = l.machines.items;
    } };

    ghost invariant = { λ l. length l.jobs.items < 2 ^ 32 };
}

/// The slot at padding: its time and tail are 0.
const NO_SLOT: Slot = Slot {
    job: 0,
    step: 0,
    time: 0,
    tail: 0,
};

/// The slot at each position in `slots`; the first block of each machine, then the number of all blocks, in `blocks`.
#[derive(Drop)]
struct Cells {
    slots: Vec<Slot>,
    blocks: Vec<u32>,
}

/// Adds `count` blocks to `slots`, with the operations of `list` down their columns, then padding. Fails with
/// `NoMemory` if memory runs out.
fn add_blocks(slots: &mut Vec<Slot>, list: &[Slot], count: usize) -> Result<(), NoMemory>
    requires { 8 * count < 2 ^ 32 }
    ensures { OnOk result (AreAdded list.now count (8 * count) slots.old.items slots.new.items) }
{
    for index in 0..8 * count {
        // ranks run down the first lanes of all blocks, then down the second lanes
        let rank = index % 8 * count + index / 8;
        slots.push(list.get(rank).copied().unwrap_or(NO_SLOT))?;
    }
    Ok(())
}

/// Lays out `lists`, the operations of each machine, machine after machine. Each list gets whole blocks of eight: it
/// runs down the first lanes of its blocks, then down the second lanes, and so on, and padding fills the rest.
/// Fails with `NoMemory` if memory runs out.
fn cells_of(alloc: Global, lists: &[Vec<Slot>]) -> Result<Cells, NoMemory>
    requires few { length lists.now ≤ MAX_MACHINES }
    requires short { AreShorter (MAX_JOBS * MAX_STEPS) (items_in lists.now) }
    ensures { IfOk result (λ c. AreCells (items_in lists.now) (length lists.now) c.slots.items c.blocks.items) }
{
    let mut slots = Vec::new(alloc);
    let mut blocks = Vec::new(alloc);
    blocks.push(0)?;
    for m in 0..lists.len() {
        let list = lists[m].as_slice();
        add_blocks(&mut slots, list, list.len().div_ceil(8))?;
        blocks.push((slots.len() / 8) as u32)?;
    }
    Ok(Cells { slots, blocks })
}

/// Lists the job of each slot, in order of position. Fails with `NoMemory` if memory runs out.
fn jobs_of(alloc: Global, slots: &[Slot]) -> Result<Vec<u32>, NoMemory>
    requires { All (λ s. s.job < 2 ^ 32) slots.now }
    ensures { IfOk result (λ v. v.items ≡ map (λ s. s.job) slots.now) }
{
    slots.iter().map(|s| s.job as u32).collect(alloc)
}

/// Lists the step of each slot, in order of position. Fails with `NoMemory` if memory runs out.
fn steps_of(alloc: Global, slots: &[Slot]) -> Result<Vec<u32>, NoMemory>
    requires { All (λ s. s.step < 2 ^ 32) slots.now }
    ensures { IfOk result (λ v. v.items ≡ map (λ s. s.step) slots.now) }
{
    slots.iter().map(|s| s.step as u32).collect(alloc)
}

/// Writes into `step_positions` the positions of `slots`: down the columns of `count` blocks from position `first` on.
fn note_positions(step_positions: &mut [Vec<u32>], slots: &[Slot], first: usize, count: usize)
    requires rows { All (IsInRows (items_in step_positions.old)) slots.now }
    requires apart { AreApart slots.now }
    requires room { length slots.now ≤ 8 * count }
    requires small { first + 8 * count < 2 ^ 32 }
    ensures long { length step_positions.new ≡ length step_positions.old }
    ensures noted { AreNoted (length slots.now) first count slots.now
        (items_in step_positions.old) (items_in step_positions.new) }
{
    for rank in 0..slots.len() {
        let slot = slots[rank];
        let index = 8 * (rank % count) + rank / count;
        step_positions[slot.job][slot.step] = (first + index) as u32;
    }
}

/// Returns the position of each step of each job. `lists` has the operations of each machine, by any ranks, and
/// those of `lists[m]` are in blocks `blocks[m]` up to `blocks[m + 1]` (excluded). Fails with `NoMemory` if memory
/// runs out.
fn positions_of_steps(
    alloc: Global,
    instance: &Instance,
    lists: &[Vec<Slot>],
    blocks: &[u32],
) -> Result<Vec<Vec<u32>>, NoMemory>
    requires slots { (ranks : List ℕ) × AreMachineSlots (ranked ranks instance.now) (items_in lists.now) }
    requires blocks { length blocks.now ≡ instance.now.machines + 1 }
    requires room { HaveRoom (items_in lists.now) instance.now.machines blocks.now }
    requires few { All (λ b. b ≤ MAX_MACHINES * (MAX_JOBS * MAX_STEPS + 8)) blocks.now }
    ensures { IfOk result (λ v. AreStepPositions instance.now (items_in lists.now) blocks.now
        instance.now.machines (items_in v.items)) }
{
    instance.keeps_limits();
    let mut step_positions = Vec::new(alloc);
    for j in 0..instance.jobs() {
        step_positions.push(vec![in alloc; 0; instance.route(j).len()]?)?;
    }
    for m in 0..lists.len() {
        let from = blocks[m] as usize;
        let to = blocks[m + 1] as usize;
        note_positions(
            step_positions.as_mut_slice(),
            lists[m].as_slice(),
            8 * from,
            to - from,
        );
    }
    Ok(step_positions)
}

/// Lists the machine of each position, also of padding. `blocks` holds the first block of each machine, then the number
/// of all blocks. Fails with `NoMemory` if memory runs out.
fn machines_of(alloc: Global, blocks: &[u32]) -> Result<Vec<u32>, NoMemory>
    requires from_0 { slice_index blocks.now 0 ≡ 0 }
    requires some { 0 < length blocks.now }
    requires ordered { (m : ℕ) → m + 1 < length blocks.now → slice_index blocks.now m ≤ slice_index blocks.now (m + 1) }
    requires few { All (λ b. b ≤ MAX_MACHINES * (MAX_JOBS * MAX_STEPS + 8)) blocks.now }
    requires small { length blocks.now ≤ MAX_MACHINES + 1 }
    ensures { IfOk result (λ v. AreMachinesOf blocks.now (length blocks.now - 1) v.items) }
{
    let mut machines = Vec::new(alloc);
    for machine in 0..blocks.len() - 1 {
        machines.resize(8 * blocks[machine + 1] as usize, machine as u32)?;
    }
    Ok(machines)
}

/// Returns the number of blocks of each machine, or 0 if not all machines have equally many.
pub(crate) fn even_blocks(blocks: &[u32]) -> usize
    ensures { AreEven blocks.now result }
{
    if blocks.len() < 2 {
        return 0;
    }
    let each = blocks[1] as usize;
    let mut first = 0;
    for m in 0..blocks.len() {
        if blocks[m] as usize != first {
            return 0;
        }
        first += each;
    }
    each
}

impl Positions {
    /// Lays out the operations of `instance` by position, machine after machine by rank. Fails with `NoMemory` if
    /// memory runs out.
    pub(crate) fn new(
        alloc: Global,
        instance: &Instance,
        ranks: &[usize],
    ) -> Result<Positions, NoMemory>
        requires { AreRanks instance.now.machines ranks.now }
        ensures { IfOk result (λ l. IsLaidOut (ranked ranks.now instance.now) l) }
    {
        instance.keeps_limits();
        let lists = machine_slots(alloc, instance, ranks)?;
        let Cells { slots, blocks } = cells_of(alloc, lists.as_slice())?;
        let step_positions = positions_of_steps(
            alloc,
            instance,
            lists.as_slice(),
            blocks.as_slice(),
        )?;
        let slots = slots.as_slice();
        Ok(Positions {
            jobs: jobs_of(alloc, slots)?,
            steps: steps_of(alloc, slots)?,
            machines: machines_of(alloc, blocks.as_slice())?,
            times: slots.iter().map(|s| s.time).collect(alloc)?,
            tails: slots.iter().map(|s| s.tail).collect(alloc)?,
            step_positions,
            blocks,
        })
    }
}
