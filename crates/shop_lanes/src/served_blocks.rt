// Serves the operations of a block: adds their times to the clocks of their columns, and finds their ends with tails.
ghost use Rattle.std.specs.Prelude.{◌≡◌, length};
ghost use Rattle.shop_lanes.specs.{Eights.IsSplat, inner.Passes.{FitServed, AreServed}};

use crate::blocks::Block;

/// Serves the operations of a block with a head of at least `least`: adds their times to `clocks`. Returns the new
/// clock of each column, and in each lane the greater of `most` and the end of the operation served there, tail
/// included.
#[inline(always)]
pub(crate) fn serve<B: Block>(heads: B, times: B, tails: B, least: B, clocks: B, most: B) -> (B, B)
    requires heads { length (B.numbers heads) ≡ 8 }
    requires least { IsSplat (B.numbers least) }
    requires most { length (B.numbers most) ≡ 8 }
    requires tails { length (B.numbers tails) ≡ 8 }
    requires times { length (B.numbers times) ≡ 8 }
    requires clocks { length (B.numbers clocks) ≡ 8 }
    requires fits { FitServed B.GREATEST B.numbers heads times tails least clocks }
    ensures { AreServed B.numbers heads times tails least clocks most result }
{
    let after = B::sum(clocks, B::waiting(times, heads, least));
    let late = B::waiting(B::sum(after, tails), heads, least);
    (after, B::greater(most, late))
}
