// The heads and ends of a word's state in lanes of one width, read in blocks of eight.
ghost use Rattle.std.specs.Prelude.{◌≡◌, ◌+◌, ◌-◌, ◌*◌, ◌/◌, ◌^◌, ◌≤◌, ◌++◌, length};
ghost use Rattle.std.specs.Prelude.{map, take, drop, replicate, slice_index, All, IfOk};
ghost use Rattle.shop_lanes.specs.inner.Passes.{IsPadded};

use crate::blocks::Block;
use crate::lane_rows::{HeadRange, LaneRows};
use crate::leaps::{leap, leap_any};
use crate::marking::Marks;
use crate::owning::own_spans;
use crate::passes::{bits_up_to, first_least};
use crate::state_lanes::StateLanes;
use std::alloc::{AllocError as NoMemory, Global};

/// The rows of a word's state: the head of the operation at each position, and the end of each job's next operation.
/// They lie in one row, so that a copy of a state is one copy of memory. Each machine has `EACH` blocks, or any number
/// if `EACH` is 0.
#[derive(Drop)]
pub struct BlockLanes<B: Block, const EACH: usize> {
    /// the head at each position, then `GREATEST` eight times, then the end of each job's next operation, then
    /// `GREATEST` as padding to whole blocks
    row: Vec<B::Number>,
    positions: usize,
    jobs: usize,
    ghost room: { length row.items + 64 ≤ 2 ^ 64 },
    ghost long: { length row.items ≡ positions + 8 + 8 * (jobs / 8 + 1) },
    ghost greatest_behind: { slice_index (map B.value row.items) positions ≡ B.GREATEST },
    ghost ends_are_padded: { IsPadded B.GREATEST jobs (drop (positions + 8) (map B.value row.items)) },
}

fn copied<B: Block>(alloc: Global, numbers: &[u64]) -> Result<Vec<B::Number>, NoMemory>
    requires { All (λ n. n ≤ B.GREATEST) numbers.now }
    ensures { IfOk result (λ v. map B.value v.items ≡ numbers.now) }
{
    let mut copy = Vec::with_capacity(alloc, numbers.len())?;
    for number in numbers {
        copy.push(B::narrowed(*number))?;
    }
    Ok(copy)
}

/// Writes `GREATEST` at all indices of `row` after the first `positions`.
fn end_row<B: Block>(row: &mut [B::Number], positions: usize)
    requires { positions ≤ length row.old }
    ensures { map B.value row.new
        ≡ take positions (map B.value row.old) ++ replicate (length row.old - positions) B.GREATEST }
{
    for index in positions..row.len() {
        row[index] = B::narrowed(B::GREATEST);
    }
}

/// Writes head 0 at each of the first `positions` indices of `row`, and `GREATEST` at all later ones.
fn clear_row<B: Block>(row: &mut [B::Number], positions: usize)
    requires { positions ≤ length row.old }
    ensures { map B.value row.new ≡ replicate positions 0 ++ replicate (length row.old - positions) B.GREATEST }
{
    for position in 0..positions {
        row[position] = B::narrowed(0);
    }
    end_row::<B>(row, positions);
}

/// Makes the row of a state of `positions` positions and `jobs` jobs with each head 0, and each end `GREATEST`. Fails
/// with `NoMemory` if memory runs out.
fn empty_row<B: Block>(
    alloc: Global,
    positions: usize,
    jobs: usize,
) -> Result<Vec<B::Number>, NoMemory>
    ensures room { IfOk result (λ v. length v.items + 64 ≤ 2 ^ 64) }
    ensures empty { IfOk result (λ v. map B.value v.items
        ≡ replicate positions 0 ++ replicate (8 + 8 * (jobs / 8 + 1)) B.GREATEST) }
{
    if positions > usize::MAX / 4 || jobs > usize::MAX / 4 {
        return Err(NoMemory);
    }
    let mut row = B::row_of(alloc, 0, positions + 8 + 8 * (jobs / 8 + 1))?;
    end_row::<B>(&mut row, positions);
    Ok(row)
}

impl<B: Block, const EACH: usize> BlockLanes<B, EACH> {
    /// The head at each position.
    #[inline(always)]
    fn heads(&self) -> &[B::Number]
        ensures { result.now ≡ take self.now.positions self.now.row.items }
    {
        &self.row[..self.positions]
    }
}

impl<B: Block, const EACH: usize> StateLanes for BlockLanes<B, EACH> {
    type Number = B::Number;

    ghost GREATEST = { B.GREATEST };

    const GREATEST: u64 = B::GREATEST;

    ghost EACH = { EACH };

    const EACH: usize = EACH;

    ghost value = { B.value };

    ghost heads = { λ s. map B.value (take s.positions s.row.items) };

    ghost ends = { λ s. take s.jobs (drop (s.positions + 8) (map B.value s.row.items)) };

    fn in_lanes(alloc: Global, numbers: &[u64]) -> Result<Vec<B::Number>, NoMemory> {
        copied::<B>(alloc, numbers)
    }

    fn new(alloc: Global, positions: usize, jobs: usize) -> Result<Self, NoMemory> {
        Ok(BlockLanes {
            row: empty_row::<B>(alloc, positions, jobs)?,
            positions,
            jobs,
        })
    }

    fn clear(&mut self) {
        clear_row::<B>(&mut self.row, self.positions);
    }

    #[inline(always)]
    fn copy_from(&mut self, other: &Self) {
        self.row.copy_from_slice(&other.row);
    }

    #[inline(always)]
    fn head(&self, position: usize) -> u64 {
        B::widened(self.row[position])
    }

    #[inline(always)]
    fn head_or_greatest(&self, position: usize) -> u64 {
        B::widened(self.row[position])
    }

    #[inline(always)]
    fn set_head(&mut self, position: usize, head: u64) {
        self.row[position] = B::narrowed(head);
    }

    #[inline(always)]
    fn set_end(&mut self, job: usize, end: u64) {
        self.row[self.positions + 8 + job] = B::narrowed(end);
    }

    #[inline(always)]
    fn first_least_end(&self) -> (usize, u64) {
        // the ends, and the padding behind the last one
        first_least::<B, EACH>(&self.row[self.positions + 8..])
    }

    #[inline(always)]
    fn below(&self, from: usize, to: usize, limit: u64) -> Marks {
        let first = 8 * from;
        let end = 8 * to;
        Marks::new(
            first,
            bits_up_to::<B, EACH>(&self.heads()[first..end], limit.saturating_sub(1)),
        )
    }

    #[inline(always)]
    fn rows<'a>(
        &'a self,
        times: &'a [B::Number],
        tails: &'a [B::Number],
    ) -> LaneRows<'a, B::Number> {
        LaneRows {
            heads: self.heads(),
            times,
            tails,
        }
    }

    #[inline(always)]
    fn bound_raised(
        rows: &LaneRows<B::Number>,
        count: usize,
        range: HeadRange,
        most: u64,
        limit: u64,
    ) -> u64 {
        if count == 0 {
            return leap_any::<B>(rows, range, most, limit);
        }
        leap::<B>(8 * count, rows, range, most, limit)
    }

    #[inline(always)]
    fn narrowed(number: u64) -> B::Number {
        B::narrowed(number)
    }

    #[inline(always)]
    fn widened(number: B::Number) -> u64 {
        B::widened(number)
    }

    #[inline(always)]
    fn own_spans(
        &self,
        times: &[B::Number],
        tails: &[B::Number],
        from: usize,
        to: usize,
        owns: &mut [B::Number],
    ) {
        own_spans::<B, EACH>(&self.rows(times, tails).blocks(from, to), owns)
    }
}
