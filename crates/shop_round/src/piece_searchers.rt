// Searches pieces of a round by their number, for the workers of any crew.
ghost use Rattle.std.specs.Prelude.{◌≡◌};

use shop_nodes::Sheet;
use shop_runs::{PieceSearch, Round};
use shop_tree::Searcher;
use std::alloc::{AllocError as NoMemory, Global};
use std::marker::Model;

/// Makes a searcher for the pieces of `round`. With a budget of one node no child is walked, so none needs a state.
fn searcher_for<'r>(round: &'r Round<'r>) -> Searcher<'r, 'r>
    ensures { result ≡ round.now.instance.now }
{
    if round.budget > 1 {
        return Searcher::over(round.layout());
    }
    Searcher::with_states(round.layout(), 0)
}

/// Searches pieces of a round one after the other, over the round's layout. Contracts see the round.
#[derive(Drop)]
pub struct PieceSearcher<'r> {
    round: &'r Round<'r>,
    searcher: Searcher<'r, 'r>,
}

impl<'r> Model for PieceSearcher<'r> {
    ghost use Rattle.std.specs.Prelude.{◌≡◌};
    ghost use Rattle.shop_runs.specs.declared.rounds.Round.{Round};

    ghost Value = { Round };

    ghost view = { λ s. s.round.now };

    ghost invariant = { λ s. s.searcher ≡ s.round.now.instance.now };
}

impl<'r> PieceSearcher<'r> {
    /// Makes a searcher of the pieces of `round`. Takes no memory.
    pub fn over(round: &'r Round<'r>) -> PieceSearcher<'r>
        ensures { result ≡ round.now }
    {
        PieceSearcher {
            round,
            searcher: searcher_for(round),
        }
    }
}

impl<'r> PieceSearch<'r> for PieceSearcher<'r> {
    ghost searched = { λ round. round };

    fn round(&self) -> &'r Round<'r> {
        self.round
    }

    fn search(&mut self, alloc: Global, number: usize) -> Result<Sheet<'r>, NoMemory> {
        let round = self.round;
        self.searcher
            .search(alloc, &round.pieces[number], round.best, round.budget)
    }
}
