// The crew that searches on the calling thread alone, and runs by this crew.
ghost use Rattle.std.specs.Prelude.{◌≡◌, ◌+◌, ◌<◌, ◌^◌, length, IfOk, OnOk};
ghost use Rattle.shop_runs.specs.{Crews.{OneForEach, StopsAtHit}, Entries.told, Runs.{SaysAnswer, IsTrusted}};
ghost use Rattle.shop_round.specs.inner.Hits.{IsEntryUpToHit, IsFirstHitBelow};

use crate::piece_searchers::PieceSearcher;
use shop_model::Instance;
use shop_runs::{Answer, Crew, Entry, PieceSearch, Plan, Round, run};
use std::alloc::{AllocError as NoMemory, Global};

/// Returns the entry of piece `number`. Passes the piece if `hit` holds an earlier one. Otherwise searches it, and sets
/// `hit` to `number` if the makespan of its sheet equals the opening bound. Fails with `NoMemory` if memory runs out.
fn entry_up_to_hit<'r>(
    alloc: Global,
    searcher: &mut PieceSearcher<'r>,
    number: usize,
    hit: &mut Option<usize>,
) -> Result<Entry<'r>, NoMemory>
    requires piece { number < length searcher.old.pieces.items }
    requires hit { IsFirstHitBelow (told searcher.old) number hit.old }
    ensures entry { IfOk result (IsEntryUpToHit (told searcher.old) number) }
    ensures hit { OnOk result (IsFirstHitBelow (told searcher.old) (number + 1) hit.new) }
    ensures round { searcher.new ≡ searcher.old }
{
    if let Some(by) = *hit {
        return Ok(Entry::passed(searcher.round(), number, by));
    }
    let sheet = searcher.search(alloc, number)?;
    let round = searcher.round();
    if sheet.makespan == round.bound {
        *hit = Some(number);
    }
    Ok(Entry::done(round, sheet))
}

/// The crew of the calling thread alone. It searches the pieces of a round in order until one's makespan equals the
/// opening bound, and passes the rest.
#[derive(Clone, Copy)]
pub struct Alone;

impl Alone {
    /// Searches the pieces of `round` in order until one's makespan equals the opening bound, and passes the rest.
    /// Returns one entry for each piece, in number order. Fails with `NoMemory` if memory runs out.
    pub fn search_round<'r>(
        self,
        alloc: Global,
        round: &'r Round<'r>,
    ) -> Result<Vec<Entry<'r>>, NoMemory>
        ensures entries { IfOk result (λ v. OneForEach (told round.now) v.items) }
        ensures stops { IfOk result (λ v. StopsAtHit (told round.now) v.items) }
    {
        let mut searcher = PieceSearcher::over(round);
        let pieces = round.pieces.len();
        let mut entries = Vec::with_capacity(alloc, pieces)?;
        let mut hit = None;
        for number in 0..pieces {
            let entry = entry_up_to_hit(alloc, &mut searcher, number, &mut hit)?;
            entries.push(entry)?;
        }
        Ok(entries)
    }
}

impl<R> Crew<R> for Alone {
    ghost ready = { Unit {0} };

    fn search<'r>(
        &mut self,
        _rt: &R,
        alloc: Global,
        round: &'r Round<'r>,
    ) -> Result<Vec<Entry<'r>>, NoMemory> {
        self.search_round(alloc, round)
    }
}

/// Searches `instance` by `plan`, as `run` does, on the calling thread alone. Fails with `NoMemory` if memory runs out.
/// For library callers and tests: the program doesn't use `run_alone`.
pub fn run_alone(alloc: Global, instance: &Instance, plan: &Plan) -> Result<Answer, NoMemory>
    ensures says { IfOk result (λ a. SaysAnswer instance.now plan.now a) }
    ensures trust { IfOk result (λ a. IsTrusted instance.now a) }
    ensures nodes { IfOk result (λ a. a.nodes < 2 ^ 50) }
{
    run(&(), alloc, instance, plan, &mut Alone)
}
