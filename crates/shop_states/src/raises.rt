// Raises heads after an operation is dispatched; if the longer word is to be bounded, also notes how far.
ghost use Rattle.std.specs.Prelude.{◌+◌, ◌≤◌, ◌<◌, ◌^◌, [], length, slice_index};
ghost use Rattle.shop_states.specs.inner.{LaneRaises.raises_in, LaidLanes.{HasRaisedIn, RaisesIn, rows_in}};
ghost use Rattle.shop_states.specs.inner.RaiseCalls.{CanDelay, CanNote, CanRaise};
ghost use Rattle.shop_states.specs.inner.Raises.{AreWaiting, AsksOwn, IsOnMachine, IsPosition, IsRaisable, SetsEndAt};
ghost use Rattle.shop_states.specs.inner.{RisingLists.IsIn, Watchers.{Notes, Sees}, MachineRaises.AreListed};

use crate::dispatches::{Dispatch, marks_end};
use crate::lane_raises::{LaneRaise, see};
use crate::machine_sets::MachineSet;
use shop_lanes::{Marks, StateLanes};
use shop_layout::{Grid, Routes};
use std::mem;

/// Raises the head at `position` to `end`, then every later head on its route that is now too early. Notes how far each
/// later head rose, see `see`. Doesn't note the first head: a candidate's `own` covers the heads up to `end` on the
/// machine of its dispatch, and `raise_behind` notes the first head itself. Takes a step for each head that rises. The
/// legs of a route are side by side in memory, so that no step waits for the one before it to read the next position.
/// At the end of a route the head is the greatest number, and the raise stops.
#[inline(always)]
pub(crate) fn raise_route<L: StateLanes, const NUMBERS: usize>(
    lanes: &mut L,
    raises: &mut [LaneRaise<L::Number>],
    raised: &mut MachineSet,
    routes: &Routes,
    position: usize,
    end: u64,
)
    requires waits { 0 < slice_index (L.heads lanes.old) position }
    requires below { slice_index (L.heads lanes.old) position ≤ end }
    requires raisable { IsRaisable L.GREATEST routes.now [] (rows_in L.StateLanes routes.now lanes.old)
        (IsPosition position) (AsksOwn end) }
    requires note { 0 < NUMBERS → CanNote L.value NUMBERS routes.now.machines raises.old raised.old }
    ensures raises { RaisesIn L.StateLanes routes.now [] (IsPosition position) end lanes.old lanes.new }
    ensures seen { 0 < NUMBERS → Sees routes.now.machines (IsPosition position) end (L.heads lanes.old)
        (L.heads lanes.new) (raises_in L.value raises.old) (raises_in L.value raises.new) }
    ensures noted { 0 < NUMBERS → Notes routes.now.machines position end (L.heads lanes.old) (L.heads lanes.new)
        (raises_in L.value raises.old) (raises_in L.value raises.new) }
    ensures listed { 0 < NUMBERS → AreListed (raises_in L.value raises.new) raised.new }
{
    lanes.set_head(position, end);
    let mut ready = end + routes.time(position);
    let mut index = routes.behind(position);
    loop {
        let leg = routes.leg(index);
        let here = leg.position as usize;
        let head = lanes.head_or_greatest(here);
        if ready <= head {
            return;
        }
        lanes.set_head(here, ready);
        see::<L, NUMBERS>(raises, raised, leg.machine, head, ready);
        ready += leg.time;
        index += 1;
    }
}

/// Sets the end of the operation at `position` to `begin` plus its time, if it is its job's next operation.
#[inline(always)]
pub(crate) fn set_end_at<L: StateLanes>(
    lanes: &mut L,
    routes: &Routes,
    next: &[u32],
    position: usize,
    begin: u64,
)
    requires within { position < length routes.now.times }
    requires job { position < length routes.now.jobs }
    requires known { slice_index routes.now.jobs position < length next.now }
    requires ends { length next.now ≤ length (L.ends lanes.old) }
    requires fits { begin + slice_index routes.now.times position ≤ L.GREATEST }
    requires computable { L.GREATEST < 2 ^ 64 }
    ensures { SetsEndAt routes.now next.now position begin (rows_in L.StateLanes routes.now lanes.old)
        (rows_in L.StateLanes routes.now lanes.new) }
{
    let job = routes.job(position);
    if next[job] as usize == position {
        lanes.set_end(job, begin + routes.time(position));
    }
}

/// Raises to `end` each head below `end` at the marked positions, where operations wait, and sets the end of each of
/// these operations that is its job's next one. Also raises every later head on their routes that is too early then, so
/// that a marked head may have risen before its turn comes.
#[inline(always)]
pub(crate) fn raise_marked<L: StateLanes, const NUMBERS: usize>(
    lanes: &mut L,
    raises: &mut [LaneRaise<L::Number>],
    raised: &mut MachineSet,
    routes: &Routes,
    next: &[u32],
    marks: Marks,
    end: u64,
)
    requires marks { AreWaiting (L.heads lanes.old) marks }
    requires can { CanRaise L.GREATEST routes.now next.now (IsIn marks) end
        (rows_in L.StateLanes routes.now lanes.old) }
    requires note { 0 < NUMBERS → CanNote L.value NUMBERS routes.now.machines raises.old raised.old }
    ensures raises { RaisesIn L.StateLanes routes.now next.now (IsIn marks) end lanes.old lanes.new }
    ensures noted { 0 < NUMBERS → HasRaisedIn L.StateLanes routes.now next.now (IsIn marks) end
        lanes.old lanes.new (raises_in L.value raises.old) (raises_in L.value raises.new) raised.new }
{
    let mut todo = marks;
    while let Some(position) = todo.pop_first() {
        if lanes.head(position) < end {
            set_end_at(lanes, routes, next, position, end);
            raise_route::<L, NUMBERS>(lanes, raises, raised, routes, position, end);
        }
    }
}

/// Does what `MachineRaises::raise` does, for machines of any number of blocks: raises what is marked in the first
/// eight blocks, then marks and raises the next eight, and so on. Notes nothing if `NUMBERS` is 0. Stays out of line,
/// since each kind of dispatch would else have this code anew.
#[inline(never)]
pub(crate) fn raise_any<L: StateLanes, const NUMBERS: usize>(
    lanes: &mut L,
    raises: &mut [LaneRaise<L::Number>],
    raised: &mut MachineSet,
    grid: &Grid<L>,
    next: &[u32],
    dispatch: Dispatch,
)
    requires can { CanDelay L.GREATEST grid.now next.now (rows_in L.StateLanes grid.now lanes.old) dispatch }
    requires note { 0 < NUMBERS → CanNote L.value NUMBERS grid.now.machines raises.old raised.old }
    ensures raises { RaisesIn L.StateLanes grid.now next.now (IsOnMachine grid.now dispatch.machine) dispatch.end
        lanes.old lanes.new }
    ensures noted { 0 < NUMBERS → HasRaisedIn L.StateLanes grid.now next.now
        (IsOnMachine grid.now dispatch.machine) dispatch.end lanes.old lanes.new (raises_in L.value raises.old)
        (raises_in L.value raises.new) raised.new }
{
    let routes = grid.routes();
    let behind = grid.block(dispatch.machine + 1);
    let end = dispatch.end;
    let mut from = grid.block(dispatch.machine);
    let mut marks = dispatch.delayed;
    // taken out, so that the set stays in registers
    let mut machines = mem::replace(raised, MachineSet::none());
    loop {
        raise_marked::<L, NUMBERS>(lanes, raises, &mut machines, &routes, next, marks, end);
        from = marks_end(from, behind);
        if from == behind {
            break;
        }
        marks = lanes.below(from, marks_end(from, behind), end);
    }
    *raised = machines;
}
