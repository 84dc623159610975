// The raises of heads on each machine in a dispatch, and the bound that they give.
ghost use Rattle.std.specs.Prelude.{◌≡◌, ◌+◌, ◌≤◌, ◌<◌, ◌^◌, IfOk, length};
ghost use Rattle.shop_states.specs.inner.{LaidLanes.{HasRaisedIn, rows_in}, RaiseCalls.CanDelay};
ghost use Rattle.shop_states.specs.inner.MachineRaises.{AreEmpty, CanTakeSpans, CanTakeSpansUnder, TakesSpans};
ghost use Rattle.shop_states.specs.inner.{Raises.IsOnMachine, Watchers.AreKnown};
ghost use Rattle.shop_states.specs.inner.Siblings.{BoundsRaises, CanRaiseLate, HasRaisedLate};

use crate::dispatches::{Dispatch, MOST_MARKED};
use crate::lane_bounds::{BoundRange, kept_ceiling, machine_bound, take_any_spans, take_spans_of};
use crate::lane_raises::{LaneRaise, no_raise, take_raise};
use crate::lane_times::{bound_time, lane_limit, lane_number};
use crate::late_raises::{LateMachine, raise_late};
use crate::machine_sets::MachineSet;
use crate::raises::{raise_any, raise_marked};
use shop_lanes::StateLanes;
use shop_layout::{Grid, Routes};
use std::alloc::{AllocError as NoMemory, Global};
use std::marker::Model;

/// How far noted heads rose on each machine, in a dispatch or where children are bounded together; empty between.
/// `raise` returns the set of the machines with a raise, so that `take_bound` visits these machines alone.
#[derive(Drop)]
pub struct MachineRaises<L: StateLanes> {
    /// raises[machine]: of the heads noted on that machine, the least value before they rose and the greatest after
    raises: Vec<LaneRaise<L::Number>>,
}

impl<L: StateLanes> Model for MachineRaises<L> {
    ghost use Rattle.std.specs.Prelude.{◌≤◌, ◌<◌, List, length};
    ghost use Rattle.shop_states.specs.inner.LaneRaises.{Raise, raises_in};

    ghost Value = { List Raise };

    ghost view = { λ r. raises_in L.value r.raises.items };

    ghost invariant = { λ r. (length r.raises.items ≤ 128) × (0 < L.EACH → length r.raises.items ≤ 64) };
}

impl<L: StateLanes> MachineRaises<L> {
    /// Makes empty raises for `machines` machines, at most 128, and at most 64 in lanes for a fixed number of blocks a
    /// machine. Fails with `NoMemory` if memory runs out.
    pub fn new(alloc: Global, machines: usize) -> Result<MachineRaises<L>, NoMemory>
        requires most { machines ≤ 128 }
        requires few { 0 < L.EACH → machines ≤ 64 }
        ensures { IfOk result (λ r. (length r ≡ machines) × AreEmpty r) }
    {
        let mut raises = Vec::with_capacity(alloc, machines)?;
        for _ in 0..machines {
            raises.push(no_raise::<L>()).unwrap();
        }
        Ok(MachineRaises { raises })
    }

    /// Raises the heads that `dispatch` delays to its end, then every later head on their routes that is now too early.
    /// Updates the ends of next operations. Notes how far the later heads rose, and returns the set of their machines.
    #[inline(always)]
    pub(crate) fn raise(
        &mut self,
        lanes: &mut L,
        grid: &Grid<L>,
        next: &[u32],
        dispatch: Dispatch,
    ) -> MachineSet
        requires at_rest { AreEmpty self.old }
        requires can { CanDelay L.GREATEST grid.now next.now (rows_in L.StateLanes grid.now lanes.old) dispatch }
        requires known { AreKnown grid.now.machines (length self.old) }
        ensures { HasRaisedIn L.StateLanes grid.now next.now (IsOnMachine grid.now dispatch.machine) dispatch.end
            lanes.old lanes.new self.old self.new result }
    {
        let mut raised = MachineSet::none();
        let raises = self.raises.as_mut_slice();
        let each = grid.fixed_blocks_each();
        // `delayed` marks at most `MOST_MARKED` blocks. If a machine has more, or an unknown number, `raise_any` marks
        // the later blocks as it goes
        if each == 0 || each > MOST_MARKED {
            if raises.len() <= 64 {
                raise_any::<L, 1>(lanes, raises, &mut raised, grid, next, dispatch);
                return raised;
            }
            raise_any::<L, 2>(lanes, raises, &mut raised, grid, next, dispatch);
            return raised;
        }
        let routes = grid.routes();
        let (delayed, end) = (dispatch.delayed, dispatch.end);
        // lanes with code for one number of blocks have at most 64 machines
        raise_marked::<L, 1>(lanes, raises, &mut raised, &routes, next, delayed, end);
        raised
    }

    /// Returns the greatest of `range.least` and the spans of the machines in `raised` from their raised heads. The
    /// span from a head is the greatest end, tail included, of the machine's operations with no lesser head, served by
    /// rank from that head on. May stop once the bound reaches `range.limit`. Empties the raises. Skips a machine whose
    /// ceiling, if it has one, is at most the bound so far.
    #[inline(always)]
    pub(crate) fn take_bound(
        &mut self,
        raised: MachineSet,
        lanes: &L,
        grid: &Grid<L>,
        range: &BoundRange,
    ) -> u64
        requires limit { range.now.limit < 2 ^ 63 }
        requires below { range.now.least < range.now.limit }
        requires can { CanTakeSpansUnder L.GREATEST range.now.ceilings.now self.old raised grid.now
            (rows_in L.StateLanes grid.now lanes.now) (range.now.least + 1) }
        ensures { TakesSpans grid.now (rows_in L.StateLanes grid.now lanes.now) self.old self.new
            (range.now.least + 1) (range.now.limit + 1) (result + 1) }
    {
        let raises = self.raises.as_mut_slice();
        let each = grid.fixed_blocks_each();
        let higher = BoundRange {
            least: lane_number(range.least),
            limit: lane_number(range.limit),
            ceilings: range.ceilings,
        };
        if each == 0 {
            return bound_time(take_any_spans(raises, raised, lanes, grid, &higher));
        }
        bound_time(take_spans_of(each, raises, raised, lanes, grid, &higher))
    }

    /// Raises heads on routes after the operations that wait on a late machine, as `late_raises::raise_late` does.
    /// Returns the set of machines on which heads rose.
    #[inline(always)]
    pub(crate) fn raise_late(
        &mut self,
        lanes: &mut L,
        routes: &Routes,
        late: LateMachine,
    ) -> MachineSet
        requires at_rest { AreEmpty self.old }
        requires can { CanRaiseLate L.GREATEST routes.now (rows_in L.StateLanes routes.now lanes.old) late }
        requires known { AreKnown routes.now.machines (length self.old) }
        ensures { HasRaisedLate L.GREATEST routes.now late (rows_in L.StateLanes routes.now lanes.old)
            (rows_in L.StateLanes routes.now lanes.new) self.old self.new result }
    {
        let mut raised = MachineSet::none();
        let raises = self.raises.as_mut_slice();
        // lanes with code for one number of blocks have at most 64 machines: no test is made there
        if L::EACH > 0 || raises.len() <= 64 {
            raise_late::<L, 1>(lanes, raises, &mut raised, routes, late);
            return raised;
        }
        raise_late::<L, 2>(lanes, raises, &mut raised, routes, late);
        raised
    }

    /// Writes the ceiling of each machine, in lanes, into `ceilings`: the greatest of `least` and its spans from the
    /// heads within its raise, or `u64::MAX` where that reaches `limit`. Returns the bound that the greatest ceiling
    /// means. Empties the raises.
    #[inline(always)]
    pub(crate) fn take_ceilings<'a>(
        &mut self,
        raised: MachineSet,
        ceilings: &mut [u64],
        lanes: &'a L,
        grid: &'a Grid<'_, L>,
        least: u64,
        limit: u64,
    ) -> u64
        requires least { least < 2 ^ 63 }
        requires can { CanTakeSpans L.GREATEST self.old raised grid.now (rows_in L.StateLanes grid.now lanes.now) }
        requires room { length ceilings.old ≡ length self.old }
        requires computable { L.GREATEST < 2 ^ 64 }
        ensures bounds { BoundsRaises grid.now (rows_in L.StateLanes grid.now lanes.now) self.old self.new
            ceilings.new (least + 1) (result + 1) }
        ensures long { length ceilings.new ≡ length ceilings.old }
    {
        let raises = self.raises.as_mut_slice();
        let lowest = lane_number(least);
        let most = lane_limit(limit);
        ceilings.fill(lowest);
        let each = grid.fixed_blocks_each();
        let rows = grid.rows(lanes);
        let mut greatest = lowest;
        let mut left = raised;
        while let Some(machine) = left.pop_first() {
            let raise = take_raise::<L>(raises, machine);
            let (from, to) = grid.blocks_of(each, machine);
            let span = machine_bound::<L>(each, &rows.blocks(from, to), raise, lowest, most);
            let ceiling = kept_ceiling(span, most);
            ceilings[machine] = ceilings[machine].max(ceiling);
            greatest = greatest.max(ceiling);
        }
        bound_time(greatest)
    }
}
