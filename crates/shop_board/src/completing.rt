// Searches the pieces for which no worker of a crew brought an entry.
ghost use Rattle.std.specs.Prelude.{◌≡◌, length, IfOk, vec_len};
ghost use Rattle.shop_runs.specs.{Entries.told, Crews.OneForEach};
ghost use Rattle.shop_workers.specs.inner.Gathered.{AreByPiece};

use shop_round::PieceSearcher;
use shop_runs::{Entry, Round};
use shop_workers::complete;
use std::alloc::{AllocError as NoMemory, Global};

/// Returns one entry for each piece of `round`, in number order, as `complete` does, by a searcher of the calling
/// thread. Fails with `NoMemory` if memory runs out.
pub(crate) fn complete_round<'r>(
    alloc: Global,
    round: &'r Round<'r>,
    by_piece: Vec<Option<Entry<'r>>>,
) -> Result<Vec<Entry<'r>>, NoMemory>
    requires len { vec_len by_piece ≡ length round.now.pieces.items }
    requires by_piece { AreByPiece (told round.now) by_piece.items }
    ensures { IfOk result (λ v. OneForEach (told round.now) v.items) }
{
    complete(alloc, &mut PieceSearcher::over(round), by_piece)
}
