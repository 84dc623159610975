// Dispatches one operation in a state.
ghost use Rattle.std.specs.Prelude.{◌≡◌, ◌<◌, ◌^◌, ◌++◌, ◌∷◌, [], List, ℕ, OnSome, length, slice_set};
ghost use Rattle.shop_layout.specs.Positions.{position_behind};
ghost use Rattle.shop_model.specs.{Shop.Shop, Word.IsWord};
ghost use Rattle.shop_bound.specs.{Bound.lb, Conflicts.conflict};
ghost use Rattle.shop_states.specs.{States.TellsBoundBelow, inner.{Dispatches.IsDispatchOf, LaneEnds.CanKeepEnds}};
ghost use Rattle.shop_states.specs.inner.Advances.{CanAdvance, CanGoOn, CanStrike, IsAdvancing, IsRaisedFor};
ghost use Rattle.shop_states.specs.inner.{LaidLanes.{KeepsWord, rows_in}, LaneStates.GoesOn, MachineRaises.AreEmpty};
ghost use Rattle.shop_states.specs.inner.{Raises.IsStepPosition, StateCopies.IsAsLong};

use crate::dispatches::Dispatch;
use crate::lane_bounds::BoundRange;
use crate::machine_raises::MachineRaises;
use crate::machine_sets::MachineSet;
use crate::raises::raise_any;
use crate::states::State;
use shop_lanes::StateLanes;
use shop_layout::Grid;

/// Makes the operation after `position` on the route of `job` the job's next one, and sets that operation's end in
/// lanes: `GREATEST` if the job has no operation left.
#[inline(always)]
pub(crate) fn set_next<L: StateLanes>(
    lanes: &mut L,
    next: &mut [u32],
    grid: &Grid<L>,
    job: usize,
    position: usize,
)
    requires job { job < length next.old }
    requires position { position < length grid.now.jobs }
    requires stands { IsStepPosition grid.now position }
    requires keep { CanKeepEnds L.GREATEST grid.now (slice_set next.old job (position_behind grid.now position))
        (rows_in L.StateLanes grid.now lanes.old) }
    ensures { GoesOn L.GREATEST grid.now position job (rows_in L.StateLanes grid.now lanes.old)
        (rows_in L.StateLanes grid.now lanes.new) next.old next.new }
{
    let routes = grid.routes();
    let leg = routes.leg(routes.behind(position));
    next[job] = leg.position;
    // at the end of a route the head is the greatest number, and the time is 0
    let head = lanes.head_or_greatest(leg.position as usize);
    lanes.set_end(job, head + leg.time);
}

/// Strikes the operation of `dispatch` out of the lanes of a word's state, or out of a copy of them, and raises the
/// heads that its end delays. `next` has the word's next operations. Returns the bound of the extended word if it is
/// below `range.limit`; then `set_next` completes its state. Else returns `None`. `range.least` is at most that bound,
/// and at least the former word's bound and the operation's own span: how late the operation, and the others of its
/// machine with their tails, end if it goes first.
#[inline(always)]
pub(crate) fn advance_below<L: StateLanes>(
    lanes: &mut L,
    raises: &mut MachineRaises<L>,
    grid: &Grid<L>,
    next: &[u32],
    dispatch: Dispatch,
    range: &BoundRange,
) -> Option<u64>
    requires is { IsDispatchOf grid.now (L.heads lanes.old) next.now dispatch }
    requires can { CanAdvance L.GREATEST grid.now (rows_in L.StateLanes grid.now lanes.old) next.now
        dispatch.job range.now.least (length raises.old) range.now.ceilings.now }
    requires at_rest { AreEmpty raises.old }
    requires limit { range.now.limit < 2 ^ 63 }
    ensures told { (shop : Shop) (w : List ℕ) → IsAdvancing L.GREATEST shop w grid.now
        (rows_in L.StateLanes grid.now lanes.old) next.now dispatch.job range.now.least
        → TellsBoundBelow range.now.limit (lb shop (w ++ dispatch.job ∷ [])) result }
    ensures ready { OnSome result (IsRaisedFor L.GREATEST grid.now dispatch.position dispatch.job
        (rows_in L.StateLanes grid.now lanes.old) (rows_in L.StateLanes grid.now lanes.new) next.now) }
    ensures positions { length (L.heads lanes.new) ≡ length (L.heads lanes.old) }
    ensures ends { length (L.ends lanes.new) ≡ length (L.ends lanes.old) }
    ensures machines { length raises.new ≡ length raises.old }
    ensures rest { AreEmpty raises.new }
{
    if range.limit <= range.least {
        return None;
    }
    lanes.set_head(dispatch.position, 0);
    let raised = raises.raise(lanes, grid, next, dispatch);
    let bound = raises.take_bound(raised, lanes, grid, range);
    if range.limit <= bound {
        return None;
    }
    Some(bound)
}

/// Makes `to` a copy of the state `from` in which the next operation of `job` is dispatched, and returns as
/// `advance_below` does. The dispatch is looked up before the copy. Next operations are copied last, and only if the
/// bound of the extended word is below the limit: else `to` is no word's state.
#[inline(always)]
pub(crate) fn dispatch_in_copy<L: StateLanes>(
    from: &State<L>,
    to: &mut State<L>,
    raises: &mut MachineRaises<L>,
    grid: &Grid<L>,
    job: usize,
    range: &BoundRange,
) -> Option<u64>
    requires can { CanAdvance L.GREATEST grid.now (rows_in L.StateLanes grid.now from.now.lanes) from.now.next.items
        job range.now.least (length raises.old) range.now.ceilings.now }
    requires long { IsAsLong L.heads L.ends from.now to.old }
    requires at_rest { AreEmpty raises.old }
    requires limit { range.now.limit < 2 ^ 63 }
    ensures told { (shop : Shop) (w : List ℕ) → IsAdvancing L.GREATEST shop w grid.now
        (rows_in L.StateLanes grid.now from.now.lanes) from.now.next.items job range.now.least
        → TellsBoundBelow range.now.limit (lb shop (w ++ job ∷ [])) result }
    ensures state { (shop : Shop) (w : List ℕ) → KeepsWord L.StateLanes grid.now from.now shop w
        → IsWord shop (w ++ job ∷ []) → OnSome result (KeepsWord L.StateLanes grid.now to.new shop (w ++ job ∷ [])) }
    ensures room { IsAsLong L.heads L.ends from.now to.new }
    ensures machines { length raises.new ≡ length raises.old }
    ensures rest { AreEmpty raises.new }
{
    let next = from.next.as_slice();
    let dispatch = Dispatch::of(from, grid, job);
    let position = dispatch.position;
    to.lanes.copy_from(&from.lanes);
    let bound = advance_below(&mut to.lanes, raises, grid, next, dispatch, range)?;
    let copied = to.next.as_mut_slice();
    copied.copy_from_slice(next);
    set_next(&mut to.lanes, copied, grid, job, position);
    Some(bound)
}

/// Dispatches the operation of `dispatch`, which was looked up in this state. Does what `advance_below` and `set_next`
/// do, but bounds nothing, so that heads rise without notes.
#[inline(always)]
pub(crate) fn advance_unbounded<L: StateLanes>(
    state: &mut State<L>,
    grid: &Grid<L>,
    dispatch: Dispatch,
)
    requires is { IsDispatchOf grid.now (L.heads state.old.lanes) state.old.next.items dispatch }
    requires can { CanGoOn L.GREATEST grid.now (rows_in L.StateLanes grid.now state.old.lanes) state.old.next.items
        dispatch.job }
    ensures state { (shop : Shop) (w : List ℕ) → KeepsWord L.StateLanes grid.now state.old shop w
        → IsWord shop (w ++ dispatch.job ∷ [])
        → KeepsWord L.StateLanes grid.now state.new shop (w ++ dispatch.job ∷ []) }
    ensures room { IsAsLong L.heads L.ends state.old state.new }
{
    let job = dispatch.job;
    let position = dispatch.position;
    let lanes = &mut state.lanes;
    let next = state.next.as_mut_slice();
    lanes.set_head(position, 0);
    let (mut raises, mut raised) = ([], MachineSet::none());
    raise_any::<L, 0>(lanes, &mut raises, &mut raised, grid, next, dispatch);
    set_next(lanes, next, grid, job, position);
}

/// Dispatches the next operation of `job`, the only job in the conflict set. No head rises.
#[inline(always)]
pub(crate) fn strike<L: StateLanes>(state: &mut State<L>, grid: &Grid<L>, job: usize)
    requires { CanStrike L.GREATEST grid.now (rows_in L.StateLanes grid.now state.old.lanes) state.old.next.items job }
    ensures { (shop : Shop) (w : List ℕ) → KeepsWord L.StateLanes grid.now state.old shop w
        → conflict shop w ≡ job ∷ [] → KeepsWord L.StateLanes grid.now state.new shop (w ++ job ∷ []) }
{
    let lanes = &mut state.lanes;
    let next = state.next.as_mut_slice();
    let position = next[job] as usize;
    lanes.set_head(position, 0);
    set_next(lanes, next, grid, job, position);
}
