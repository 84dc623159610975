// `Leg`: a step of a route, as a walk along the route reads it. `Routes`: the rows of a layout that such a walk reads.
ghost use Rattle.std.specs.Prelude.{◌≡◌, ◌+◌, ◌<◌, ◌^◌, ◌++◌, [], All, IfOk, OnOk, flat_map, length, slice_index};
ghost use Rattle.std.specs.Prelude.{slice_index_or};
ghost use Rattle.shop_model.specs.{Limits.IsWithinLimits, Shop.Shop};
ghost use Rattle.shop_layout.specs.{Legs.{all_legs, end_of, leg_index, route_legs}, Positions.IsLaidOut};
ghost use Rattle.shop_layout.specs.inner.{RouteRows.{AreBehind, AreBelow, AreFirsts, IsBehind}, Vectors.items_in};

use crate::positions::Positions;
use std::alloc::{AllocError as NoMemory, Global};
use std::marker::Model;

/// A step of a route: its position, its machine and its time; or the end of a route, at the position after all others.
/// The legs of a route are side by side in memory, so a walk along it reads them in turn; rows by position would be
/// read at a distant index for each step.
#[derive(Clone, Copy)]
pub struct Leg {
    pub position: u32,
    pub machine: u32,
    pub time: u64,
}

/// Adds the legs of a route, whose steps are at `positions`, in order, and then its end. There are `end` positions in
/// all. Fails with `NoMemory` if memory runs out.
fn add_route(
    legs: &mut Vec<Leg>,
    positions: &[u32],
    machines: &[u32],
    times: &[u64],
    end: u32,
) -> Result<(), NoMemory>
    requires machines { AreBelow (length machines.now) positions.now }
    requires times { AreBelow (length times.now) positions.now }
    ensures { OnOk result (legs.new.items ≡ legs.old.items ++ route_legs machines.now times.now end positions.now) }
{
    for position in positions {
        let at = *position as usize;
        legs.push(Leg {
            position: *position,
            machine: machines[at],
            time: times[at],
        })?;
    }
    legs.push(Leg {
        position: end,
        machine: 0,
        time: 0,
    })?;
    Ok(())
}

/// Makes the legs of all routes, route after route, each with its end, and returns where the legs of each job begin.
/// `step_positions` has the position of each step of each job; `machines` and `times` are by position, and there are
/// `end` positions. A leg takes 16 bytes. Fails with `NoMemory` if memory runs out.
fn legs_of(
    alloc: Global,
    step_positions: &[Vec<u32>],
    machines: &[u32],
    times: &[u64],
    end: u32,
) -> Result<(Vec<Leg>, Vec<usize>), NoMemory>
    requires machines { All (AreBelow (length machines.now)) (items_in step_positions.now) }
    requires times { All (AreBelow (length times.now)) (items_in step_positions.now) }
    ensures legs { IfOk result (λ v. v.0.items
        ≡ flat_map (route_legs machines.now times.now end) (items_in step_positions.now)) }
    ensures firsts { IfOk result (λ v. AreFirsts (route_legs machines.now times.now end)
        (items_in step_positions.now) v.1.items) }
{
    let mut legs = Vec::with_capacity(alloc, machines.len().saturating_add(step_positions.len()))?;
    let mut firsts = Vec::with_capacity(alloc, step_positions.len())?;
    for j in 0..step_positions.len() {
        firsts.push(legs.len())?;
        add_route(
            &mut legs,
            step_positions[j].as_slice(),
            machines,
            times,
            end,
        )?;
    }
    Ok((legs, firsts))
}

/// Finds, for each position, where the legs after its operation begin. `jobs` and `steps` are by position; `firsts` is
/// where the legs of each job begin. Fails with `NoMemory` if memory runs out.
fn behind_of(
    alloc: Global,
    jobs: &[u32],
    steps: &[u32],
    firsts: &[usize],
) -> Result<Vec<usize>, NoMemory>
    requires jobs { AreBelow (length firsts.now) jobs.now }
    requires steps { length steps.now ≡ length jobs.now }
    ensures { IfOk result (λ v. AreBehind jobs.now steps.now firsts.now v.items) }
{
    (0..jobs.len())
        .map(|position| firsts[jobs[position] as usize].wrapping_add(steps[position] as usize + 1))
        .collect(alloc)
}

/// Makes the legs of all routes of the layout `positions`, and returns for each position where the legs after its
/// operation begin. Fails with `NoMemory` if memory runs out.
pub(crate) fn legs_with_behind(
    alloc: Global,
    positions: &Positions,
) -> Result<(Vec<Leg>, Vec<usize>), NoMemory>
    requires { (shop : Shop) × IsWithinLimits shop × IsLaidOut shop positions.now }
    ensures legs { IfOk result (λ v. v.0.items ≡ all_legs positions.now) }
    ensures behind { IfOk result (λ v. IsBehind positions.now v.1.items) }
{
    let (times, step_positions) = (
        positions.times.as_slice(),
        positions.step_positions.as_slice(),
    );
    let machines = positions.machines.as_slice();
    let (jobs, steps) = (positions.jobs.as_slice(), positions.steps.as_slice());
    let (legs, firsts) = legs_of(alloc, step_positions, machines, times, jobs.len() as u32)?;
    let behind = behind_of(alloc, jobs, steps, firsts.as_slice())?;
    Ok((legs, behind))
}

/// The rows of a layout that a walk along a route reads. Each row is looked up once, since a walk that writes would
/// look it up again at each step. Contracts see the layout.
#[derive(Drop)]
pub struct Routes<'a> {
    /// the layout, which only proofs read
    positions: &'a Positions,
    jobs: &'a [u32],
    machines: &'a [u32],
    times: &'a [u64],
    legs: &'a [Leg],
    behind: &'a [usize],
}

impl<'a> Model for Routes<'a> {
    ghost use Rattle.std.specs.Prelude.{◌≡◌};
    ghost use Rattle.shop_layout.specs.{Positions.LayoutState, Legs.all_legs, inner.RouteRows.{AreSmallRows, IsBehind}};

    ghost Value = { LayoutState };

    ghost view = { λ r. r.positions.now };

    ghost invariant = { λ r. (r.jobs.now ≡ r.positions.now.jobs)
        × (r.machines.now ≡ r.positions.now.machines)
        × (r.times.now ≡ r.positions.now.times)
        × (r.legs.now ≡ all_legs r.positions.now)
        × IsBehind r.positions.now r.behind.now
        × AreSmallRows r.positions.now };
}

impl<'a> Routes<'a> {
    /// Looks up the rows of the layout `positions`, with the legs of all routes and, for each position, where the legs
    /// after its operation begin.
    #[inline(always)]
    pub(crate) fn of(positions: &'a Positions, legs: &'a [Leg], behind: &'a [usize]) -> Routes<'a>
        requires legs { legs.now ≡ all_legs positions.now }
        requires behind { IsBehind positions.now behind.now }
        ensures { result ≡ positions.now }
    {
        Routes {
            positions,
            jobs: positions.jobs.as_slice(),
            machines: positions.machines.as_slice(),
            times: positions.times.as_slice(),
            legs,
            behind,
        }
    }

    /// The job of the operation at `position`.
    #[inline(always)]
    pub fn job(&self, position: usize) -> usize
        requires { position < length self.now.jobs }
        ensures { result ≡ slice_index self.now.jobs position }
    {
        let jobs = self.jobs;
        jobs[position] as usize
    }

    /// The machine of the operation at `position`.
    #[inline(always)]
    pub fn machine(&self, position: usize) -> u32
        requires { position < length self.now.machines }
        ensures { result ≡ slice_index self.now.machines position }
    {
        let machines = self.machines;
        machines[position]
    }

    /// The time of the operation at `position`.
    #[inline(always)]
    pub fn time(&self, position: usize) -> u64
        requires { position < length self.now.times }
        ensures { result ≡ slice_index self.now.times position }
    {
        let times = self.times;
        times[position]
    }

    /// The index of the leg after the operation at `position`, or of the end of its route if that operation is the last
    /// one. Later legs of the route follow.
    #[inline(always)]
    pub fn behind(&self, position: usize) -> usize
        requires job { position < length self.now.jobs }
        requires known { slice_index self.now.jobs position < length self.now.step_positions }
        requires within { slice_index self.now.steps position
            < length (slice_index_or self.now.step_positions (slice_index self.now.jobs position) []) }
        ensures index { result ≡ leg_index self.now (slice_index self.now.jobs position)
            (slice_index self.now.steps position + 1) }
        ensures few { length (all_legs self.now) < 2 ^ 64 }
    {
        let behind = self.behind;
        behind[position]
    }

    /// The leg at `index`, or the end of a route.
    #[inline(always)]
    pub fn leg(&self, index: usize) -> Leg
        requires { index < length (all_legs self.now) }
        ensures { result ≡ slice_index_or (all_legs self.now) index (end_of 0) }
    {
        let legs = self.legs;
        legs[index]
    }
}
