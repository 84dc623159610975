// One-machine bounds from the heads that a dispatch raised, in lanes.
ghost use Rattle.std.specs.Prelude.{◌≡◌, ◌-◌, ◌≤◌, ◌<◌, ◌^◌, ◌⊎◌, IsTrue, length, slice_index};
ghost use Rattle.shop_lanes.specs.Rows.{lanes_in};
ghost use Rattle.shop_layout.specs.Positions.{AreEven};
ghost use Rattle.shop_states.specs.inner.{LaneRaises.{raise_in, raises_in}, LaidLanes.rows_in};
ghost use Rattle.shop_states.specs.inner.MachineRaises.{CanBoundRows, CanTakeSpansUnder, IsSpanByRaise, TakesSpans};

use crate::lane_raises::{LaneRaise, take_raise};
use crate::machine_sets::MachineSet;
use shop_lanes::{HeadRange, LaneRows, StateLanes, are_wide};
use shop_layout::Grid;

/// Where a bound is sought: it is no less than `least`, and a search for it may end once it reaches `limit`. `ceilings`
/// is empty, or has for each machine, in lanes, a number that the bound doesn't exceed there.
#[derive(Clone, Copy)]
pub(crate) struct BoundRange<'a> {
    pub least: u64,
    pub limit: u64,
    pub ceilings: &'a [u64],
}

/// Returns the greatest of `least` and the spans of the machine with these `rows` from its heads above `raise.from` and
/// up to `raise.to`. The span from a head is the greatest end, tail included, of the operations with no lesser head,
/// served by rank from that head on. May stop once the bound reaches `limit`. `each` is the number of the machine's
/// blocks, or 0 if unknown.
#[inline(always)]
pub(crate) fn machine_bound<L: StateLanes>(
    each: usize,
    rows: &LaneRows<L::Number>,
    raise: LaneRaise<L::Number>,
    least: u64,
    limit: u64,
) -> u64
    requires { CanBoundRows L.value L.GREATEST each rows.now raise }
    ensures { IsSpanByRaise (raise_in L.value raise) (lanes_in L.value rows.now) limit least result }
{
    if limit <= least {
        return least;
    }
    let range = HeadRange {
        above: L::widened(raise.from),
        upto: L::widened(raise.to),
    };
    L::bound_raised(rows, each, range, least, limit)
}

/// Returns whether the ceiling of `machine`, if it has one, is at most `most`.
#[inline(always)]
fn is_ceiling_within(ceilings: &[u64], machine: usize, most: u64) -> bool
    ensures { IsTrue result → (machine < length ceilings.now) × (slice_index ceilings.now machine ≤ most) }
{
    machine < ceilings.len() && ceilings[machine] <= most
}

/// Returns the greatest of `range.least` and the spans, explained at `machine_bound`, of the machines in `raised` from
/// the heads within their raises. May stop once the bound reaches `range.limit`. Empties the raises. Skips a machine
/// whose ceiling, if it has one, is at most the bound so far. All numbers of `range` and the answer are in lanes. The
/// machines all have `each` blocks, or any numbers of blocks if `each` is 0: a number that is known lets the compiler
/// unroll the passes over the blocks.
#[inline(always)]
pub(crate) fn take_spans_of<'a, L: StateLanes>(
    each: usize,
    raises: &mut [LaneRaise<L::Number>],
    raised: MachineSet,
    lanes: &'a L,
    grid: &'a Grid<'_, L>,
    range: &BoundRange,
) -> u64
    requires even { AreEven grid.now.blocks each }
    requires can { CanTakeSpansUnder L.GREATEST range.now.ceilings.now (raises_in L.value raises.old) raised grid.now
        (rows_in L.StateLanes grid.now lanes.now) range.now.least }
    ensures { TakesSpans grid.now (rows_in L.StateLanes grid.now lanes.now) (raises_in L.value raises.old)
        (raises_in L.value raises.new) range.now.least range.now.limit result }
{
    // looked up only once: emptying a raise is a write, after which the rows would be looked up again
    let rows = grid.rows(lanes);
    let mut most = range.least;
    let mut left = raised;
    while let Some(machine) = left.pop_first() {
        let raise = take_raise::<L>(raises, machine);
        if !is_ceiling_within(range.ceilings, machine, most) {
            let (from, to) = grid.blocks_of(each, machine);
            most = machine_bound::<L>(each, &rows.blocks(from, to), raise, most, range.limit);
        }
    }
    most
}

/// Calls `take_spans_of` in lanes for any number of blocks a machine: with code for each number up to eight, in lanes
/// of 64 bits with one loop. Stays out of line, so that a walk has this code once.
#[inline(never)]
pub(crate) fn take_any_spans<L: StateLanes>(
    raises: &mut [LaneRaise<L::Number>],
    raised: MachineSet,
    lanes: &L,
    grid: &Grid<L>,
    range: &BoundRange,
) -> u64
    requires { CanTakeSpansUnder L.GREATEST range.now.ceilings.now (raises_in L.value raises.old) raised grid.now
        (rows_in L.StateLanes grid.now lanes.now) range.now.least }
    ensures { TakesSpans grid.now (rows_in L.StateLanes grid.now lanes.now) (raises_in L.value raises.old)
        (raises_in L.value raises.new) range.now.least range.now.limit result }
{
    if are_wide(L::GREATEST) {
        return take_spans_of(0, raises, raised, lanes, grid, range);
    }
    match grid.blocks_each() {
        1 => take_spans_of(1, raises, raised, lanes, grid, range),
        2 => take_spans_of(2, raises, raised, lanes, grid, range),
        3 => take_spans_of(3, raises, raised, lanes, grid, range),
        4 => take_spans_of(4, raises, raised, lanes, grid, range),
        5 => take_spans_of(5, raises, raised, lanes, grid, range),
        6 => take_spans_of(6, raises, raised, lanes, grid, range),
        7 => take_spans_of(7, raises, raised, lanes, grid, range),
        8 => take_spans_of(8, raises, raised, lanes, grid, range),
        _ => take_spans_of(0, raises, raised, lanes, grid, range),
    }
}

/// Returns `span`, or `u64::MAX` if `span` reaches `limit`, since the pass may then have stopped early.
#[inline(always)]
pub(crate) fn kept_ceiling(span: u64, limit: u64) -> u64
    ensures { ((span < limit) × (result ≡ span)) ⊎ ((limit ≤ span) × (result ≡ 2 ^ 64 - 1)) }
{
    if span < limit { span } else { u64::MAX }
}
