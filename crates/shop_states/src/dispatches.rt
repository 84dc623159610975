// A dispatch of an operation: its position, when it ends, and which heads its end raises.
ghost use Rattle.std.specs.Prelude.{◌≡◌, ◌≤◌, ◌+◌, length, min};
ghost use Rattle.shop_states.specs.inner.{Advances.CanGoOn, Dispatches.{AreDelayedOn, IsDispatchOf}, LaidLanes.rows_in};
ghost use Rattle.shop_states.specs.inner.Raises.{HasBlocks};

use crate::states::State;
use shop_lanes::{Marks, StateLanes};
use shop_layout::Grid;

/// The most blocks that are marked at once: `Marks` has a bit for each of their 64 positions.
pub(crate) const MOST_MARKED: usize = 8;

/// A dispatch of an operation, the next one of `job`. `end` is its end in lanes. `delayed` marks what else waits in the
/// first eight blocks of its machine and can begin before that end.
#[derive(Drop)]
pub(crate) struct Dispatch {
    pub job: usize,
    pub position: usize,
    pub machine: usize,
    pub end: u64,
    pub delayed: Marks,
}

/// Returns where the blocks end that can be marked at once, from block `from` on: at most `MOST_MARKED` blocks, of
/// those up to `behind` (excluded).
#[inline(always)]
pub(crate) fn marks_end(from: usize, behind: usize) -> usize
    requires { from ≤ behind }
    ensures { result ≡ min (from + 8) behind }
{
    from + (behind - from).min(MOST_MARKED)
}

/// Marks what waits in the first eight blocks of `machine` with a head below `end`.
#[inline(always)]
#[tactic(auto, using(crate::proofs::MarkedPositions::among_same))]
fn mark_below<L: StateLanes>(lanes: &L, grid: &Grid<L>, machine: usize, end: u64) -> Marks
    requires machine { HasBlocks grid.now (length (L.heads lanes.now)) machine }
    requires fits { end ≤ L.GREATEST }
    ensures { AreDelayedOn grid.now machine end (L.heads lanes.now) result }
{
    let (from, behind) = grid.blocks_of(grid.fixed_blocks_each(), machine);
    let to = marks_end(from, behind);
    lanes.below(from, to, end)
}

impl Dispatch {
    /// Looks up the next operation of `job`, and marks what its end delays. `state` is the state in which the operation
    /// is dispatched or, for a dispatch in a copy, the one that is copied: a look-up reads eight heads at once, and a
    /// processor delays such a read if the heads were only just written, as in the copy. The operation itself is marked
    /// at first, unless its time is 0, since it can begin before its own end.
    #[inline(always)]
    pub(crate) fn of<L: StateLanes>(state: &State<L>, grid: &Grid<L>, job: usize) -> Dispatch
        requires { CanGoOn L.GREATEST grid.now (rows_in L.StateLanes grid.now state.now.lanes)
            state.now.next.items job }
        ensures job { result.job ≡ job }
        ensures is { IsDispatchOf grid.now (L.heads state.now.lanes) state.now.next.items result }
    {
        let next = state.next.as_slice();
        let position = next[job] as usize;
        let routes = grid.routes();
        let machine = routes.machine(position) as usize;
        let end = state.lanes.head(position) + routes.time(position);
        let mut delayed = mark_below(&state.lanes, grid, machine, end);
        delayed.unmark(position);
        Dispatch {
            job,
            position,
            machine,
            end,
            delayed,
        }
    }
}
