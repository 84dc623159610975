// Running sums, running maxima, and the greatest and least of the eight numbers of a block.
ghost use Rattle.std.specs.{Prelude.{◌≡◌, ◌≤◌, length}, Simd.Lanes.sum_l};
ghost use Rattle.shop_lanes.specs.Folds.{sums_before, greatest, least_up_to, greatest_before, maxima_behind};

use crate::blocks::{Block, Move};

/// Returns in each lane the sum of all lanes of `block` before it; 0 in the first lane.
#[inline(always)]
pub fn sums_before<B: Block>(block: B) -> B
    requires eight { length (B.numbers block) ≡ 8 }
    requires fits { sum_l (B.numbers block) ≤ B.GREATEST }
    ensures { B.numbers result ≡ sums_before 0 (B.numbers block) }
{
    let pairs = B::sum(block, B::moved(block, Move::UpOne));
    let fours = B::sum(pairs, B::moved(pairs, Move::UpTwo));
    B::moved(B::sum(fours, B::moved(fours, Move::UpFour)), Move::UpOne)
}

/// Returns in each lane the greatest number in the lanes of `block` before it; 0 in the first lane.
#[inline(always)]
pub fn greatest_before<B: Block>(block: B) -> B
    requires { length (B.numbers block) ≡ 8 }
    ensures { B.numbers result ≡ greatest_before 0 (B.numbers block) }
{
    let ones = B::moved(block, Move::UpOne);
    let pairs = B::greater(ones, B::moved(ones, Move::UpOne));
    let fours = B::greater(pairs, B::moved(pairs, Move::UpTwo));
    B::greater(fours, B::moved(fours, Move::UpFour))
}

/// Returns in each lane the greatest number of the later lanes of `block`; 0 in the last lane.
#[inline(always)]
pub fn greatest_behind<B: Block>(block: B) -> B
    requires { length (B.numbers block) ≡ 8 }
    ensures { B.numbers result ≡ maxima_behind 0 (B.numbers block) }
{
    let ones = B::moved(block, Move::DownOne);
    let pairs = B::greater(ones, B::moved(ones, Move::DownOne));
    let fours = B::greater(pairs, B::moved(pairs, Move::DownTwo));
    B::greater(fours, B::moved(fours, Move::DownFour))
}

/// The greatest of the eight numbers of `block`.
#[inline(always)]
pub fn greatest_of<B: Block>(block: B) -> u64
    requires { length (B.numbers block) ≡ 8 }
    ensures { result ≡ greatest (B.numbers block) }
{
    let fours = B::greater(block, B::moved(block, Move::Halves));
    let pairs = B::greater(fours, B::moved(fours, Move::Quarters));
    B::first(B::greater(pairs, B::moved(pairs, Move::Neighbours)))
}

/// The least of the eight numbers of `block`.
#[inline(always)]
pub fn least_of<B: Block>(block: B) -> u64
    requires { length (B.numbers block) ≡ 8 }
    ensures { result ≡ least_up_to B.GREATEST (B.numbers block) }
{
    let fours = B::lesser(block, B::moved(block, Move::Halves));
    let pairs = B::lesser(fours, B::moved(fours, Move::Quarters));
    B::first(B::lesser(pairs, B::moved(pairs, Move::Neighbours)))
}
