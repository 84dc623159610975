// Finds the conflict set from the heads in lanes.
ghost use Rattle.std.specs.Prelude.{ℕ, ◌*◌, ◌≤◌, ◌<◌, IsTrue, length};
ghost use Rattle.shop_states.specs.inner.LaneChoices.{AreConflictBlocks, HaveJobs, IsAlone, IsJobAt, IsJobBelow};
ghost use Rattle.shop_states.specs.inner.{Raises.IsInBlocks, RisingLists.{HasGathered, IsGatheredWith, IsIn}};

use crate::dispatches::marks_end;
use crate::job_sets::JobSet;
use shop_lanes::{Marks, StateLanes};
use shop_layout::Grid;

/// Which blocks a conflict set is in: `from` up to `behind` (excluded), all blocks of one machine. They have the next
/// operation that can end first, that of `chosen`; `end` is its end in lanes. `below` marks the heads below `end` in
/// the blocks before `to`.
#[derive(Drop)]
pub(crate) struct ConflictBlocks {
    pub chosen: usize,
    pub end: u64,
    pub from: usize,
    pub to: usize,
    pub behind: usize,
    pub below: Marks,
}

/// Puts the job of each position in `marked` into `jobs`.
#[inline(always)]
fn gather_marked<const NUMBERS: usize, L: StateLanes>(
    jobs: &mut JobSet<NUMBERS>,
    marked: Marks,
    grid: &Grid<L>,
)
    requires known { (q : ℕ) → IsIn marked q → q < length grid.now.jobs }
    requires jobs { HaveJobs grid.now (length grid.now.jobs) (64 * NUMBERS) }
    ensures { HasGathered (IsJobAt grid.now marked) jobs.old jobs.new }
{
    let mut left = marked;
    while let Some(position) = left.pop_first() {
        jobs.put(grid.routes().job(position));
    }
}

/// Returns whether no operation but the one at `position` waits in blocks `first` up to `behind` (excluded) with a head
/// below `limit`. Stays out of line: most machines have at most `MOST_MARKED` blocks, which were looked at before.
#[inline(never)]
fn is_alone_in<L: StateLanes>(
    lanes: &L,
    first: usize,
    behind: usize,
    limit: u64,
    position: usize,
) -> bool
    requires ordered { first ≤ behind }
    requires within { 8 * behind ≤ length (L.heads lanes.now) }
    requires fits { limit ≤ L.GREATEST }
    ensures { IsTrue result → IsAlone (L.heads lanes.now) first behind limit position }
{
    let mut from = first;
    while from < behind {
        let to = marks_end(from, behind);
        if !lanes.below(from, to, limit).has_no_other(position) {
            return false;
        }
        from = to;
    }
    true
}

/// Returns true only if no operation but the one at `position` waits in `blocks` with a head below `blocks.end`. False
/// may be wrong: a sole candidate that isn't seen costs time, and changes no answer.
#[inline(always)]
pub(crate) fn is_alone<L: StateLanes>(blocks: &ConflictBlocks, lanes: &L, position: usize) -> bool
    requires { AreConflictBlocks L.GREATEST (L.heads lanes.now) blocks.now }
    ensures { IsTrue result → IsAlone (L.heads lanes.now) blocks.now.from blocks.now.behind blocks.now.end position }
{
    if !blocks.below.has_no_other(position) {
        return false;
    }
    if blocks.to == blocks.behind {
        return true;
    }
    is_alone_in(lanes, blocks.to, blocks.behind, blocks.end, position)
}

/// Returns the conflict set that is in `blocks`: the chosen job, and each job with an operation that waits there with a
/// head below the end of the chosen one. Each of these operations is its job's next one, since no next operation can
/// end earlier.
#[inline(always)]
pub(crate) fn conflict_set<const NUMBERS: usize, L: StateLanes>(
    blocks: ConflictBlocks,
    lanes: &L,
    grid: &Grid<L>,
) -> JobSet<NUMBERS>
    requires blocks { AreConflictBlocks L.GREATEST (L.heads lanes.now) blocks }
    requires jobs { HaveJobs grid.now (length (L.heads lanes.now)) (64 * NUMBERS) }
    requires chosen { blocks.chosen < 64 * NUMBERS }
    ensures { IsGatheredWith blocks.chosen (IsJobBelow grid.now (L.heads lanes.now)
        (IsInBlocks blocks.from blocks.behind) blocks.end) result }
{
    let behind = blocks.behind;
    let end = blocks.end;
    let mut from = blocks.to;
    let mut jobs = JobSet::new();
    jobs.put(blocks.chosen);
    gather_marked(&mut jobs, blocks.below, grid);
    while from < behind {
        let to = marks_end(from, behind);
        let below = lanes.below(from, to, end);
        gather_marked(&mut jobs, below, grid);
        from = to;
    }
    jobs.rises();
    jobs
}
