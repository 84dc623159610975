// Raises a bound to the greatest span from a head in a range. The span from head h is h plus the load L of the
// operations with no lesser head. Later heads have no greater load, so `leap` skips the heads up to the bound less L.
ghost use Rattle.std.specs.Prelude.{◌≡◌, ◌%◌, ◌≤◌, max, length, map};
ghost use Rattle.shop_lanes.specs.{Eights.ahead_of, Folds.least_up_to, Rows.lanes_in, inner.Passes.CanRaiseBound};
ghost use Rattle.shop_lanes.specs.Spans.{spans_between, IsRaisedBelow};

use crate::block_counts::{are_wide, at_few_blocks, at_more_blocks};
use crate::blocks::Block;
use crate::folds::least_of;
use crate::lane_rows::{HeadRange, LaneRows};
use crate::passes::load_of;

/// How far ahead of `from` the nearest of `heads` lies, where 0 follows `greatest`.
#[inline(always)]
fn nearest_of<B: Block>(count: usize, heads: &[B::Number], from: u64, greatest: u64) -> u64
    requires count { length heads.now ≡ count }
    requires whole_blocks { count % 8 ≡ 0 }
    requires from { from ≤ B.GREATEST }
    requires greatest { greatest ≡ B.GREATEST }
    ensures { result ≡ least_up_to B.GREATEST (map (ahead_of B.GREATEST from) (map B.value heads.now)) }
{
    let begin = B::splat(from);
    let mut least = B::splat(greatest);
    for block in 0..count / 8 {
        least = B::lesser(least, B::ahead(heads, block, begin));
    }
    least_of(least)
}

/// Returns `most` or, if greater, the greatest span from a head in `range`. The span from a head is the greatest end,
/// tail included, of the operations with no lesser head, served by rank from that head on. Stops early once the bound
/// reaches `limit`. A literal `count`, the number of positions, unrolls the loops over blocks.
#[inline(always)]
pub(crate) fn leap<B: Block>(
    count: usize,
    rows: &LaneRows<B::Number>,
    range: HeadRange,
    most: u64,
    limit: u64,
) -> u64
    requires count { length rows.now.heads.now ≡ count }
    requires can { CanRaiseBound B.value B.GREATEST range.upto rows.now }
    ensures { IsRaisedBelow limit (max most (spans_between range.above range.upto (lanes_in B.value rows.now))) result }
{
    let greatest = B::GREATEST;
    let upto = range.upto;
    let mut bound = most;
    let mut settled = range.above;
    while settled < upto {
        let load = load_of::<B>(count, rows, settled + 1);
        if upto + load <= bound {
            return bound;
        }
        let ahead = nearest_of::<B>(count, rows.heads, settled + 1, greatest);
        if ahead >= upto - settled {
            return bound;
        }
        let head = settled + 1 + ahead;
        bound = bound.max(head + load);
        if bound >= limit {
            return bound;
        }
        settled = bound - load;
    }
    bound
}

/// `leap` for any number of blocks, out of line. Up to eight blocks (three in lanes of 64 bits) have code of their own,
/// with a literal `count`.
#[inline(never)]
pub(crate) fn leap_any<B: Block>(
    rows: &LaneRows<B::Number>,
    range: HeadRange,
    most: u64,
    limit: u64,
) -> u64
    requires { CanRaiseBound B.value B.GREATEST range.upto rows.now }
    ensures { IsRaisedBelow limit (max most (spans_between range.above range.upto (lanes_in B.value rows.now))) result }
{
    at_few_blocks!(
        rows.heads.len(),
        0,
        leap(rows, range, most, limit),
        at_more_blocks!(
            rows.heads.len(),
            leap(rows, range, most, limit),
            leap::<B>(rows.heads.len(), rows, range, most, limit)
        )
    )
}
