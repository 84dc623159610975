// The own span of each waiting operation of a machine: how late the operation, and the others with their tails, end if
// it goes first. Takes two passes: one goes down the columns and sums each up by itself, one goes back up.
ghost use Rattle.std.specs.Prelude.{◌≡◌, ◌/◌, length};
ghost use Rattle.shop_lanes.specs.Rows.{lanes_in};
ghost use Rattle.shop_lanes.specs.inner.{Passes.AreColumns, OwnSpans.{AreEnds, AreNoted, CanOwn, WritesOwnSpans}};

use crate::block_counts::{are_wide, at_few_blocks, at_more_blocks};
use crate::blocks::Block;
use crate::folds::{greatest_before, greatest_behind, sums_before};
use crate::lane_rows::LaneRows;
use crate::served_blocks::serve;

/// The ends of columns, if all waiting operations are served by rank from time 0 on. `begins` and `clocks` hold the
/// time when each column begins and ends. `before` and `behind` hold the greatest end, tail included, in the columns
/// before and after each column.
#[derive(Clone, Copy)]
struct ColumnEnds<B> {
    begins: B,
    before: B,
    clocks: B,
    behind: B,
}

/// Serves all waiting operations as `load_of` does, down each of eight columns from time 0 on. Writes into
/// `owns`, for each position, the greatest end, tail included, of the operations before it in its column.
#[inline(always)]
fn note_columns<B: Block>(
    count: usize,
    rows: &LaneRows<B::Number>,
    owns: &mut [B::Number],
) -> (B, B)
    requires count { length rows.now.heads.now ≡ count }
    requires can { CanOwn B.value B.GREATEST rows.now owns.old }
    ensures long { length owns.new ≡ length owns.old }
    ensures noted { AreNoted B.value rows.now owns.new }
    ensures columns { AreColumns B.numbers (count / 8) (lanes_in B.value rows.now) 1 result }
{
    let one = B::splat(1);
    let mut clocks = B::splat(0);
    let mut most = B::splat(0);
    for block in 0..count / 8 {
        B::store(most, owns, block);
        let (after, later) = serve(
            B::read(rows.heads, block),
            B::read(rows.times, block),
            B::read(rows.tails, block),
            one,
            clocks,
            most,
        );
        clocks = after;
        most = later;
    }
    (clocks, most)
}

/// Goes back up the columns and replaces what `note_columns` wrote into `owns` by own spans: how late each operation,
/// and the others with their tails, end if it goes first.
#[inline(always)]
fn write_back<B: Block>(
    count: usize,
    rows: &LaneRows<B::Number>,
    ends: ColumnEnds<B>,
    owns: &mut [B::Number],
)
    requires count { length rows.now.heads.now ≡ count }
    requires can { CanOwn B.value B.GREATEST rows.now owns.old }
    requires noted { AreNoted B.value rows.now owns.old }
    requires ends { AreEnds B.numbers (count / 8) (lanes_in B.value rows.now) ends }
    ensures { WritesOwnSpans B.value rows.now owns.old owns.new }
{
    let one = B::splat(1);
    let mut clocks = ends.clocks;
    let mut behind = ends.behind;
    let mut block = count / 8;
    while block > 0 {
        block -= 1;
        let head = B::read(rows.heads, block);
        let time = B::read(rows.times, block);
        let tail = B::read(rows.tails, block);
        let noted = B::read(owns, block);
        // If all waiting operations are served by rank from time 0 on, `first` and `behind` hold in each lane the
        // greatest end, tail included, of the operations before and after its own. `behind` includes the time of the
        // lane's own operation, which is taken off here.
        let first = B::greater(ends.before, B::sum(ends.begins, noted));
        let late = B::sum(clocks, B::waiting(tail, head, one));
        let rest = B::greater(first, B::difference(behind, time));
        B::store(B::sum(B::sum(head, time), rest), owns, block);
        behind = B::greater(behind, late);
        clocks = B::difference(clocks, B::waiting(time, head, one));
    }
}

/// Does `own_spans` in two passes. A literal `count`, the number of positions, unrolls the loops over blocks.
#[inline(always)]
fn own_spans_of<B: Block>(count: usize, rows: &LaneRows<B::Number>, owns: &mut [B::Number])
    requires count { length rows.now.heads.now ≡ count }
    requires can { CanOwn B.value B.GREATEST rows.now owns.old }
    ensures { WritesOwnSpans B.value rows.now owns.old owns.new }
{
    let (work, most) = note_columns::<B>(count, rows, owns);
    let begins = sums_before(work);
    let ends = B::sum(begins, most);
    let columns = ColumnEnds {
        begins,
        before: greatest_before(ends),
        clocks: B::sum(begins, work),
        behind: greatest_behind(ends),
    };
    write_back::<B>(count, rows, columns, owns);
}

/// Does `own_spans` out of line, for numbers of blocks without inlined code: four and more or, where `EACH` is 4, five
/// and more.
#[inline(never)]
fn own_spans_of_longer<B: Block>(rows: &LaneRows<B::Number>, owns: &mut [B::Number])
    requires { CanOwn B.value B.GREATEST rows.now owns.old }
    ensures { WritesOwnSpans B.value rows.now owns.old owns.new }
{
    at_more_blocks!(
        rows.heads.len(),
        own_spans_of(rows, owns),
        own_spans_of::<B>(rows.heads.len(), rows, owns)
    )
}

/// Writes into `owns` the own span of each waiting operation. The operation starts first, at its head, and the others
/// follow by rank: the own span is the greatest of the operation's end and the others' ends with their tails. `EACH` is
/// as for `bits_up_to`.
#[inline(always)]
pub(crate) fn own_spans<B: Block, const EACH: usize>(
    rows: &LaneRows<B::Number>,
    owns: &mut [B::Number],
)
    requires { CanOwn B.value B.GREATEST rows.now owns.old }
    ensures { WritesOwnSpans B.value rows.now owns.old owns.new }
{
    at_few_blocks!(
        rows.heads.len(),
        EACH,
        own_spans_of(rows, owns),
        own_spans_of_longer::<B>(rows, owns)
    )
}
