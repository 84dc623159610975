// Fills a state from the placement of its word, where each job has the index of its next leg.
ghost use Rattle.std.specs.Prelude.{◌≡◌, ℕ, ◌<◌, List, length};
ghost use Rattle.shop_model.specs.{Placements.{PlacementState, IsPlacement}, Word.{IsWord, Placing, placing}};
ghost use Rattle.shop_states.specs.inner.Fills.{CanFill, HasFilledJob, IsAtLeg, IsAtSomeLeg, IsNextSet, IsOnSomeRoute};
ghost use Rattle.shop_states.specs.inner.{LaidLanes.rows_in, LaneStates.{HasRoom, IsKeptInLanes}};
ghost use Rattle.shop_states.specs.inner.PlacedNexts.{IsPlacedAt, IsWordAt};

use crate::lane_times::lane_number;
use shop_lanes::StateLanes;
use shop_layout::LaidOut;

/// Sets the heads of the operations on a route from leg `index` on; the job is ready for the first of them at `ready`.
/// The legs up to the end of the route are side by side, and have all that is read of an operation.
#[inline(always)]
fn fill_route<L: StateLanes>(
    lanes: &mut L,
    laid_out: &LaidOut<L>,
    free: &[u64],
    index: usize,
    ready: u64,
)
    requires fill { CanFill L.GREATEST laid_out.now.shop laid_out.now.layout
        (rows_in L.StateLanes laid_out.now.layout lanes.old) }
    requires of { IsOnSomeRoute laid_out.now.shop laid_out.now.layout index ready free.now }
    ensures heads { (j : ℕ) → j < length laid_out.now.shop.jobs → (s : PlacementState)
        → IsAtLeg laid_out.now.shop laid_out.now.layout s j index ready free.now
        → HasFilledJob laid_out.now.shop laid_out.now.layout s j
        (rows_in L.StateLanes laid_out.now.layout lanes.old) (rows_in L.StateLanes laid_out.now.layout lanes.new) }
    ensures ends { L.ends lanes.new ≡ L.ends lanes.old }
{
    let grid = laid_out.grid();
    let routes = grid.routes();
    let end = grid.positions();
    let mut at = index;
    let mut begin = ready;
    loop {
        let leg = routes.leg(at);
        let position = leg.position as usize;
        if position >= end {
            return;
        }
        let head = begin.max(free[leg.machine as usize]);
        lanes.set_head(position, lane_number(head));
        begin = head + leg.time;
        at += 1;
    }
}

/// Sets the heads of the unplaced operations of `job`, which is ready at `ready` for its next leg, the one at `index`,
/// and the end of the first of them. Returns the position of this one, or the number of positions if the job has none
/// left: then its end stays as it was.
#[inline(always)]
fn fill_job<L: StateLanes>(
    lanes: &mut L,
    laid_out: &LaidOut<L>,
    free: &[u64],
    job: usize,
    index: usize,
    ready: u64,
) -> u32
    requires job { job < length laid_out.now.shop.jobs }
    requires fill { CanFill L.GREATEST laid_out.now.shop laid_out.now.layout
        (rows_in L.StateLanes laid_out.now.layout lanes.old) }
    requires ends { length (L.ends lanes.old) ≡ length laid_out.now.shop.jobs }
    requires of { IsAtSomeLeg laid_out.now.shop laid_out.now.layout job index ready free.now }
    ensures heads { (s : PlacementState) → IsAtLeg laid_out.now.shop laid_out.now.layout s job index ready free.now
        → HasFilledJob laid_out.now.shop laid_out.now.layout s job
        (rows_in L.StateLanes laid_out.now.layout lanes.old) (rows_in L.StateLanes laid_out.now.layout lanes.new) }
    ensures next { (s : PlacementState) → IsAtLeg laid_out.now.shop laid_out.now.layout s job index ready free.now
        → (p : Placing) → IsPlacement laid_out.now.shop p s
        → IsNextSet laid_out.now.shop laid_out.now.layout p job result (L.ends lanes.old) (L.ends lanes.new) }
{
    let grid = laid_out.grid();
    let leg = grid.routes().leg(index);
    if leg.position as usize >= grid.positions() {
        return leg.position;
    }
    let head = ready.max(free[leg.machine as usize]);
    lanes.set_end(job, lane_number(head + leg.time));
    fill_route(lanes, laid_out, free, index, ready);
    leg.position
}

/// Sets all heads and ends to those of the placement given by `next`, `ready` and `free`. Turns `next` from the indices
/// of next legs into the positions of next operations.
pub(crate) fn fill_state<L: StateLanes>(
    lanes: &mut L,
    laid_out: &LaidOut<L>,
    next: &mut [u32],
    ready: &[u64],
    free: &[u64],
)
    requires room { HasRoom laid_out.now.shop laid_out.now.layout (L.heads lanes.old) (L.ends lanes.old) next.old }
    requires of { IsWordAt laid_out.now.shop laid_out.now.layout next.old ready.now free.now }
    ensures { (w : List ℕ) → IsWord laid_out.now.shop w
        → IsPlacedAt laid_out.now.shop (placing laid_out.now.shop w) laid_out.now.layout next.old ready.now free.now
        → IsKeptInLanes L.GREATEST laid_out.now.shop w laid_out.now.layout
        (rows_in L.StateLanes laid_out.now.layout lanes.new) next.new }
{
    // called for its contract: the lanes hold every head and end
    let _ = laid_out.grid();
    lanes.clear();
    for job in 0..next.len() {
        let index = next[job] as usize;
        next[job] = fill_job(lanes, laid_out, free, job, index, ready[job]);
    }
}
