// The traits of searchers of single pieces, of crews, which search all pieces of a round, and of their makers.
ghost use Rattle.std.specs.Prelude.{◌≡◌, ◌<◌, length, IfOk};
ghost use Rattle.shop_runs.specs.{Crews.OneForEach, Entries.{told, IsOf, TellsHit}, declared.rounds.Round.Round};

use crate::entries::Entry;
use crate::plans::Workers;
use crate::rounds::Round;
use shop_nodes::Sheet;
use std::alloc::{AllocError as NoMemory, Global};

/// Searches pieces of one round, one after the other. Workers know this trait alone: what starts them makes a searcher
/// for each. Proofs about crews hold for every implementation.
pub trait PieceSearch<'r>: Drop {
    /// The round whose pieces the searcher searches.
    ghost searched: { Self → Round };

    /// Returns the round whose pieces the searcher searches.
    fn round(&self) -> &'r Round<'r>
        ensures { result.now ≡ searched self.now };

    /// Searches piece `number` of the round, and returns its sheet. Fails with `NoMemory` if memory runs out.
    fn search(&mut self, alloc: Global, number: usize) -> Result<Sheet<'r>, NoMemory>
        requires { number < length (searched self.old).pieces.items }
        ensures of { IfOk result (λ s. IsOf (told (searched self.old)) s × (s.number ≡ number)) }
        ensures hit { IfOk result (TellsHit (told (searched self.old)) number) }
        ensures round { searched self.new ≡ searched self.old };
}

/// Searches the pieces of a round, on one thread or on several.
pub trait Crew<R> {
    /// What a caller of `search` must prove: that threads may share values, or nothing if the crew has no threads.
    ghost ready: { Type 0 };

    /// Searches the pieces of `round`, and may pass those after one whose sheet's makespan equals the opening bound.
    /// Returns one entry for each piece, in number order. Fails with `NoMemory` if memory runs out.
    fn search<'r>(
        &mut self,
        rt: &R,
        alloc: Global,
        round: &'r Round<'r>,
    ) -> Result<Vec<Entry<'r>>, NoMemory>
        requires { ready }
        ensures { IfOk result (λ v. OneForEach (told round.now) v.items) };
}

/// Makes crews of 1 to 64 workers.
pub trait MakesCrew<R> {
    type Crew: Crew<R> + Drop;

    /// Makes a crew of `workers.count` workers.
    fn of(&self, workers: Workers) -> Self::Crew;
}
