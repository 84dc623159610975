// `StateLanes`: what lanes of any width offer to store the heads and ends of a word's state and to bound the word.
ghost use Rattle.std.specs.Prelude.{◌≡◌, ℕ, ◌+◌, ◌-◌, ◌*◌, ◌%◌, ◌<◌, ◌≤◌, max, List, All, IfOk, length, map, replicate};
ghost use Rattle.std.specs.Prelude.{slice_index, slice_index_or, slice_set};
ghost use Rattle.shop_lanes.specs.{Rows.{lanes_in, lanes_of, AreBlocksOf}, Marks.positions_among, Ends.IsFirstLeast};
ghost use Rattle.shop_lanes.specs.Spans.{spans_between, FitsSpan, FitOwnSpans, AreOwnSpans, IsRaisedBelow};

use crate::lane_rows::{HeadRange, LaneRows};
use crate::marking::Marks;
use std::alloc::{AllocError as NoMemory, Global};

/// The state of a word: a head for each position, and the end of each job's next operation. A head is one higher than
/// the operation at its position can begin, and 0 if no operation waits there; ends, and so spans, are one higher, too.
/// Positions come in blocks of eight, read and added up together. Ranks run down the first lanes of all blocks of a
/// machine, then down their second lanes, and so on.
pub trait StateLanes: Drop {
    /// The type of the number in a lane.
    type Number: Copy + Drop;

    ghost GREATEST: { ℕ };

    /// The greatest number that a lane holds.
    const GREATEST: u64;

    ghost EACH: { ℕ };

    /// The number of blocks of each machine, if code is made for that number alone; else 0.
    const EACH: usize;

    ghost value: { Self.Number → ℕ };

    ghost heads: { Self → List ℕ };

    ghost ends: { Self → List ℕ };

    /// Puts numbers, as the times or tails of the operations at all positions, into lanes. Fails with `NoMemory` if
    /// memory runs out.
    fn in_lanes(alloc: Global, numbers: &[u64]) -> Result<Vec<Self::Number>, NoMemory>
        requires { All (λ n. n ≤ GREATEST) numbers.now }
        ensures { IfOk result (λ row. map value row.items ≡ numbers.now) };

    /// Makes a state with each head 0, as no operation waits, and each end `GREATEST`, as no job has a next operation.
    /// Fails with `NoMemory` if memory runs out.
    fn new(alloc: Global, positions: usize, jobs: usize) -> Result<Self, NoMemory>
        ensures heads { IfOk result (λ made. heads made ≡ replicate positions 0) }
        ensures ends { IfOk result (λ made. ends made ≡ replicate jobs GREATEST) };

    /// Empties the state: sets each head to 0, so that no operation waits, and each end to `GREATEST`.
    fn clear(&mut self)
        ensures heads { heads self.new ≡ replicate (length (heads self.old)) 0 }
        ensures ends { ends self.new ≡ replicate (length (ends self.old)) GREATEST };

    /// Copies the heads and ends of the state `other`.
    fn copy_from(&mut self, other: &Self)
        requires positions { length (heads self.old) ≡ length (heads other.now) }
        requires jobs { length (ends self.old) ≡ length (ends other.now) }
        ensures heads { heads self.new ≡ heads other.now }
        ensures ends { ends self.new ≡ ends other.now };

    /// The head at `position`.
    fn head(&self, position: usize) -> u64
        requires { position < length (heads self.now) }
        ensures { result ≡ slice_index (heads self.now) position };

    /// The head at `position`; `GREATEST` after the last position.
    fn head_or_greatest(&self, position: usize) -> u64
        requires { position ≤ length (heads self.now) }
        ensures { result ≡ slice_index_or (heads self.now) position GREATEST };

    /// Sets the head at `position`.
    fn set_head(&mut self, position: usize, head: u64)
        requires in_range { position < length (heads self.old) }
        requires fits { head ≤ GREATEST }
        ensures heads { heads self.new ≡ slice_set (heads self.old) position head }
        ensures ends { ends self.new ≡ ends self.old };

    /// Sets the end of the next operation of `job`.
    fn set_end(&mut self, job: usize, end: u64)
        requires in_range { job < length (ends self.old) }
        requires fits { end ≤ GREATEST }
        ensures heads { heads self.new ≡ heads self.old }
        ensures ends { ends self.new ≡ slice_set (ends self.old) job end };

    /// The first job with the least end, and this least end.
    fn first_least_end(&self) -> (usize, u64)
        requires { 0 < length (ends self.now) }
        ensures job { IsFirstLeast (ends self.now) result.0 }
        ensures end { result.1 ≡ slice_index (ends self.now) result.0 };

    /// Marks the positions in blocks `from` up to `to` (excluded) of the operations that wait with a head below
    /// `limit`.
    fn below(&self, from: usize, to: usize, limit: u64) -> Marks
        requires ordered { from ≤ to }
        requires within { 8 * to ≤ length (heads self.now) }
        requires few { to ≤ from + 8 }
        requires fits { limit ≤ GREATEST }
        ensures { result ≡ positions_among (heads self.now) from to limit };

    /// The head, the time and the tail of the operation at each position. Who bounds many machines looks the rows up
    /// once.
    fn rows<'a>(
        &'a self,
        times: &'a [Self::Number],
        tails: &'a [Self::Number],
    ) -> LaneRows<'a, Self::Number>
        requires times { length times.now ≡ length (heads self.now) }
        requires tails { length tails.now ≡ length (heads self.now) }
        ensures heads { map value result.heads.now ≡ heads self.now }
        ensures times { result.times.now ≡ times.now }
        ensures tails { result.tails.now ≡ tails.now };

    /// Returns `most` or, if greater, the greatest span from a head in `range`. The span from a head is the greatest
    /// end, tail included, of the operations of `rows` with no lesser head, served by rank from that head on. Stops
    /// early once the bound reaches `limit`. `count` is the number of blocks, or 0 if unknown; a literal `count`
    /// unrolls loops.
    fn bound_raised(
        rows: &LaneRows<Self::Number>,
        count: usize,
        range: HeadRange,
        most: u64,
        limit: u64,
    ) -> u64
        requires whole_blocks { length rows.now.heads.now % 8 ≡ 0 }
        requires count { 0 < count → length rows.now.heads.now ≡ 8 * count }
        requires below { range.upto < GREATEST }
        requires fits { FitsSpan GREATEST range.upto (lanes_in value rows.now) }
        ensures { IsRaisedBelow limit
            (max most (spans_between range.above range.upto (lanes_in value rows.now))) result };

    /// The number as it stands in a lane.
    fn narrowed(number: u64) -> Self::Number
        requires { number ≤ GREATEST }
        ensures { value result ≡ number };

    /// The number that stands in a lane.
    fn widened(number: Self::Number) -> u64
        ensures { result ≡ value number };

    /// Writes into `owns` the own span of each waiting operation in blocks `from` up to `to` (excluded): how late the
    /// operation, and the others with their tails, end if it starts first, at its head, and they follow by rank.
    fn own_spans(
        &self,
        times: &[Self::Number],
        tails: &[Self::Number],
        from: usize,
        to: usize,
        owns: &mut [Self::Number],
    )
        requires blocks { AreBlocksOf (heads self.now) (map value times.now) (map value tails.now) from to }
        requires room { length owns.old ≡ 8 * to - 8 * from }
        requires fits { FitOwnSpans GREATEST (lanes_of (heads self.now)
            (map value times.now) (map value tails.now) from to) }
        ensures long { length owns.new ≡ length owns.old }
        ensures owns { AreOwnSpans (heads self.now)
            (map value times.now) (map value tails.now) from to (map value owns.new) };
}
