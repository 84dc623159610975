// What each width of lanes offers: blocks of eight numbers, which are read, added and compared lane by lane at once.
ghost use Rattle.std.specs.Prelude.{◌≡◌, ℕ, ◌+◌, ◌*◌, ◌<◌, ◌≤◌, List, length, replicate, map, min, max, IfOk, take};
ghost use Rattle.std.specs.{Prelude.drop, Simd.Lanes.{mask_l, zip2, put_chunk}};
ghost use Rattle.shop_lanes.specs.Eights.{added, ahead_of, first_of, is_marked, lessened, moved, waiting, AddsFit};
ghost use Rattle.shop_lanes.specs.Eights.{IsSplat};

use std::alloc::{AllocError as NoMemory, Global};

/// How the numbers of a block move among its lanes. Up is to the higher lane; 0 comes into lanes that become empty.
#[derive(Clone, Copy)]
pub enum Move {
    UpOne,
    UpTwo,
    UpFour,
    DownOne,
    DownTwo,
    DownFour,
    /// lanes 0 to 3 swap with lanes 4 to 7
    Halves,
    /// lanes 0 and 1 swap with lanes 2 and 3; the other lanes stay
    Quarters,
    /// lanes 0 and 1 swap; the other lanes stay
    Neighbours,
}

/// A block: eight numbers of one width, one in each lane. An operation works on all eight lanes at once.
pub trait Block: Copy + Drop {
    type Number: Copy + Drop;

    ghost GREATEST: { ℕ };

    /// The greatest number that a lane holds.
    const GREATEST: u64;

    ghost numbers: { Self → List ℕ };

    ghost value: { Self.Number → ℕ };

    /// The number in the width of a lane.
    fn narrowed(number: u64) -> Self::Number
        requires { number ≤ GREATEST }
        ensures { value result ≡ number };

    /// The number of a lane in 64 bits.
    fn widened(number: Self::Number) -> u64
        ensures { result ≡ value number };

    /// Makes a row with `number` at each of its `count` indices. Fails with `NoMemory` if memory runs out.
    fn row_of(alloc: Global, number: u64, count: usize) -> Result<Vec<Self::Number>, NoMemory>
        requires { number ≤ GREATEST }
        ensures { IfOk result (λ row. map value row.items ≡ replicate count number) };

    /// A block with `number` in each lane.
    fn splat(number: u64) -> Self
        requires { number ≤ GREATEST }
        ensures { numbers result ≡ replicate 8 number };

    /// Reads eight numbers of `row`, from number 8 * `block` on.
    fn read(row: &[Self::Number], block: usize) -> Self
        requires { 8 * (block + 1) ≤ length row.now }
        ensures { numbers result ≡ take 8 (drop (8 * block) (map value row.now)) };

    /// Writes the eight numbers of `written` into `row`, from number 8 * `block` on.
    fn store(written: Self, row: &mut [Self::Number], block: usize)
        requires eight { length (numbers written) ≡ 8 }
        requires within { 8 * (block + 1) ≤ length row.old }
        ensures { map value row.new ≡ put_chunk (8 * block) (map value row.old) (numbers written) };

    /// The number in the first lane of `block`.
    fn first(block: Self) -> u64
        ensures first { result ≡ first_of (numbers block) }
        ensures small { result ≤ GREATEST };

    /// Moves the numbers of `block` among its lanes. Of a literal `how` only that move is compiled, without a branch.
    fn moved(block: Self, how: Move) -> Self
        ensures { numbers result ≡ moved how (numbers block) };

    /// Adds the numbers of `b` to those of `a`, lane by lane.
    fn sum(a: Self, b: Self) -> Self
        requires { AddsFit GREATEST (numbers a) (numbers b) }
        ensures { numbers result ≡ added (numbers a) (numbers b) };

    /// Subtracts the numbers of `b` from those of `a`, lane by lane; 0 in a lane where `b` is greater.
    fn difference(a: Self, b: Self) -> Self
        requires { length (numbers a) ≡ length (numbers b) }
        ensures { numbers result ≡ lessened (numbers a) (numbers b) };

    /// The greater of the two numbers in each lane.
    fn greater(a: Self, b: Self) -> Self
        requires { length (numbers a) ≡ length (numbers b) }
        ensures { numbers result ≡ zip2 max (numbers a) (numbers b) };

    /// The lesser of the two numbers in each lane.
    fn lesser(a: Self, b: Self) -> Self
        requires { length (numbers a) ≡ length (numbers b) }
        ensures { numbers result ≡ zip2 min (numbers a) (numbers b) };

    /// Keeps the number of `block` in each lane whose head in `heads` is at least `least`; sets the other lanes to 0.
    fn waiting(block: Self, heads: Self, least: Self) -> Self
        requires heads { length (numbers heads) ≡ 8 }
        requires least { IsSplat (numbers least) }
        ensures { numbers result ≡ waiting (first_of (numbers least)) (numbers heads) (numbers block) };

    /// Reads eight numbers of `row`, from number 8 * `block` on. Returns in each lane how far its number lies ahead of
    /// `from`, where 0 follows `GREATEST`.
    fn ahead(row: &[Self::Number], block: usize, from: Self) -> Self
        requires within { 8 * (block + 1) ≤ length row.now }
        requires from { IsSplat (numbers from) }
        requires fits { first_of (numbers from) ≤ GREATEST }
        ensures { numbers result ≡ map (ahead_of GREATEST (first_of (numbers from)))
            (take 8 (drop (8 * block) (map value row.now))) };

    /// Sets bit i of the result if lane i of `block` is marked. If `equal`, the lanes that equal `number` are; else
    /// those that are above 0 and at most `number`.
    fn bits(block: Self, equal: bool, number: u64) -> u64
        requires eight { length (numbers block) ≡ 8 }
        requires fits { number ≤ GREATEST }
        ensures { result ≡ mask_l (map (is_marked equal number) (numbers block)) };

    /// Sets bit i of the result if number i of the 16 numbers of `row` from number 16 * `pair` on is marked, as for
    /// `bits`. Two blocks share what turns lanes into bits.
    fn pair_bits(row: &[Self::Number], pair: usize, equal: bool, number: u64) -> u64
        requires within { 16 * (pair + 1) ≤ length row.now }
        requires fits { number ≤ GREATEST }
        ensures { result ≡ mask_l (map (is_marked equal number) (take 16 (drop (16 * pair) (map value row.now)))) };

    ghost has_numbers: { 0 < GREATEST };
}
