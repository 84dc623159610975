// Passes over rows of numbers, eight at a time: find the load of a machine, the least number of a row, and (as bits of
// a mask) which numbers are positive and at most a limit, or equal a number.
ghost use Rattle.std.specs.{Prelude.{◌≡◌, ◌+◌, ◌*◌, ◌/◌, ◌%◌, ◌≤◌, length, map}, Simd.Lanes.mask_l};
ghost use Rattle.shop_lanes.specs.{Rows.lanes_in, Spans.{span, FitsSpan}, Eights.{is_between, is_marked}};
ghost use Rattle.shop_lanes.specs.{Folds.least_up_to, inner.Passes.{CanFindLeast, IsLeastFound}};

use crate::block_counts::{are_wide, at_few_blocks, at_more_blocks};
use crate::blocks::Block;
use crate::folds::{greatest_of, least_of, sums_before};
use crate::lane_rows::LaneRows;
use crate::served_blocks::serve;

/// The load of the operations with a head of at least `least`: their greatest end, tail included, if they are served by
/// rank from time 0 on. Serves each of eight columns by itself first. A literal `count`, the number of positions,
/// unrolls the loop over blocks.
#[inline(always)]
pub(crate) fn load_of<B: Block>(count: usize, rows: &LaneRows<B::Number>, least: u64) -> u64
    requires count { length rows.now.heads.now ≡ count }
    requires whole_blocks { length rows.now.heads.now % 8 ≡ 0 }
    requires least { least ≤ B.GREATEST }
    requires fits { FitsSpan B.GREATEST 0 (lanes_in B.value rows.now) }
    ensures { result ≡ span least 0 (lanes_in B.value rows.now) }
{
    let from = B::splat(least);
    let mut clocks = B::splat(0);
    let mut most = B::splat(0);
    for block in 0..count / 8 {
        let (after, later) = serve(
            B::read(rows.heads, block),
            B::read(rows.times, block),
            B::read(rows.tails, block),
            from,
            clocks,
            most,
        );
        clocks = after;
        most = later;
    }
    greatest_of(B::sum(sums_before(clocks), most))
}

/// Sets bit i of the result if number i of `numbers` is marked, as `Block::bits` tells. A literal `count`, the length
/// of `numbers`, unrolls the loop over pairs of blocks.
#[inline(always)]
fn bits_of<B: Block>(count: usize, numbers: &[B::Number], equal: bool, number: u64) -> u64
    requires count { length numbers.now ≡ count }
    requires whole_blocks { count % 8 ≡ 0 }
    requires few { count ≤ 64 }
    requires fits { number ≤ B.GREATEST }
    ensures { result ≡ mask_l (map (is_marked equal number) (map B.value numbers.now)) }
{
    let mut bits = 0;
    let mut pair = count / 16;
    if count % 16 > 0 {
        bits = B::bits(B::read(numbers, 2 * pair), equal, number);
    }
    while pair > 0 {
        pair -= 1;
        bits = B::pair_bits(numbers, pair, equal, number) + 65536 * bits;
    }
    bits
}

/// Does `bits_up_to` out of line, for numbers of blocks without inlined code: four and more or, where `EACH` is 4, five
/// and more.
#[inline(never)]
fn bits_of_longer<B: Block>(heads: &[B::Number], upto: u64) -> u64
    requires whole_blocks { length heads.now % 8 ≡ 0 }
    requires few { length heads.now ≤ 64 }
    requires fits { upto ≤ B.GREATEST }
    ensures { result ≡ mask_l (map (is_between 0 upto) (map B.value heads.now)) }
{
    at_more_blocks!(
        heads.len(),
        bits_of(heads, false, upto),
        bits_of::<B>(heads.len(), heads, false, upto)
    )
}

/// Sets bit i of the result if number i of `heads` is above 0 and at most `upto`. Code for four blocks is inlined only
/// where each machine has four, as `EACH` says.
#[inline(always)]
pub(crate) fn bits_up_to<B: Block, const EACH: usize>(heads: &[B::Number], upto: u64) -> u64
    requires whole_blocks { length heads.now % 8 ≡ 0 }
    requires few { length heads.now ≤ 64 }
    requires fits { upto ≤ B.GREATEST }
    ensures { result ≡ mask_l (map (is_between 0 upto) (map B.value heads.now)) }
{
    at_few_blocks!(
        heads.len(),
        EACH,
        bits_of(heads, false, upto),
        bits_of_longer::<B>(heads, upto)
    )
}

/// The least of the `count` numbers in `numbers`; `GREATEST` if there are none.
#[inline(always)]
fn least_number<B: Block>(count: usize, numbers: &[B::Number]) -> u64
    requires count { length numbers.now ≡ count }
    requires whole_blocks { count % 8 ≡ 0 }
    ensures { result ≡ least_up_to B.GREATEST (map B.value numbers.now) }
{
    let mut least = B::splat(B::GREATEST);
    for block in 0..count / 8 {
        least = B::lesser(least, B::read(numbers, block));
    }
    least_of(least)
}

/// Does `first_least` for at most 64 numbers. A literal length `count` unrolls the loops over blocks.
#[inline(always)]
fn first_least_of<B: Block>(count: usize, numbers: &[B::Number]) -> (usize, u64)
    requires count { length numbers.now ≡ count }
    requires few { count ≤ 64 }
    requires can { CanFindLeast B.value B.GREATEST numbers.now }
    ensures { IsLeastFound (map B.value numbers.now) result }
{
    let least = least_number::<B>(count, numbers);
    let bits = bits_of::<B>(count, numbers, true, least);
    (bits.trailing_zeros() as usize, least)
}

/// Does `first_least` for any number of blocks: finds the least number, then its first position.
#[inline(always)]
fn first_least_of_any<B: Block>(numbers: &[B::Number]) -> (usize, u64)
    requires { CanFindLeast B.value B.GREATEST numbers.now }
    ensures { IsLeastFound (map B.value numbers.now) result }
{
    let least = least_number::<B>(numbers.len(), numbers);
    for block in 0..numbers.len() / 8 {
        let bits = B::bits(B::read(numbers, block), true, least);
        if bits != 0 {
            return (8 * block + bits.trailing_zeros() as usize, least);
        }
    }
    (numbers.len(), least)
}

/// Does `first_least` out of line, for numbers of blocks without inlined code: four and more or, where `EACH` is 4,
/// five and more.
#[inline(never)]
fn first_least_of_longer<B: Block>(numbers: &[B::Number]) -> (usize, u64)
    requires { CanFindLeast B.value B.GREATEST numbers.now }
    ensures { IsLeastFound (map B.value numbers.now) result }
{
    at_more_blocks!(
        numbers.len(),
        first_least_of(numbers),
        first_least_of_any::<B>(numbers)
    )
}

/// The first position of the least number of `numbers`, and this least number. `EACH` is as for `bits_up_to`.
#[inline(always)]
pub(crate) fn first_least<B: Block, const EACH: usize>(numbers: &[B::Number]) -> (usize, u64)
    requires { CanFindLeast B.value B.GREATEST numbers.now }
    ensures { IsLeastFound (map B.value numbers.now) result }
{
    at_few_blocks!(
        numbers.len(),
        EACH,
        first_least_of(numbers),
        first_least_of_longer::<B>(numbers)
    )
}
