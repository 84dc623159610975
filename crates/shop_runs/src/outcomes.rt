// The result of a round, from the sheets of its pieces, and the standing after the round.
ghost use Rattle.std.specs.Prelude.{◌≡◌, ◌+◌, ◌<◌, ◌^◌, IfOk, OnOk};
ghost use Rattle.shop_runs.specs.{Entries.told, Crews.OneForEach, inner.Outcomes.{IsOutcome, TakesIn}};
ghost use Rattle.shop_runs.specs.Standings.{IsGatheredOf, GatheredCovers, IsStandingOf};

use crate::distant_nodes::DistantNodes;
use crate::entries::{Entry, Kind};
use crate::open_nodes::OpenNodes;
use crate::plans::Order;
use crate::rounds::Round;
use crate::standings::Standing;
use shop_model::Word;
use shop_nodes::{Left, Sheet};
use std::alloc::{AllocError as NoMemory, Global};

/// The result of a round: the better word (`None` if no search found one), the makespan, what the searches left open,
/// in order, and the nodes counted so far. If a sheet's makespan equals the opening bound, `left` is empty.
#[derive(Drop)]
pub struct RoundResult<'r> {
    pub found: Option<Word>,
    pub makespan: u64,
    pub left: Vec<Left<'r>>,
    pub nodes: u64,
}

impl<'r> RoundResult<'r> {
    /// Adds `sheet` to the result: counts its nodes, keeps what its search left open, and takes over its word and
    /// makespan if that makespan is lower. Fails with `NoMemory` if memory runs out.
    fn take_in(&mut self, sheet: Sheet<'r>) -> Result<(), NoMemory>
        requires { self.old.nodes + sheet.taken < 2 ^ 64 }
        ensures { OnOk result (TakesIn self.old sheet.entry self.new) }
    {
        let Sheet {
            found,
            makespan,
            left,
            taken,
            ..
        } = sheet;
        self.nodes += taken;
        if makespan < self.makespan {
            self.makespan = makespan;
            self.found = found;
        }
        self.left.push(left)?;
        Ok(())
    }
}

/// Makes the result of `round` from `entries`, one for each piece in order. Stops at the first sheet whose makespan
/// equals the opening bound, so it never reaches a piece that a crew passed. Fails with `NoMemory` if memory runs out.
pub fn outcome_of<'r>(
    alloc: Global,
    round: &'r Round<'r>,
    entries: Vec<Entry<'r>>,
) -> Result<RoundResult<'r>, NoMemory>
    requires { OneForEach (told round.now) entries.items }
    ensures { IfOk result (λ o. IsOutcome (told round.now) o) }
{
    let mut outcome = RoundResult {
        found: None,
        makespan: round.best,
        left: Vec::with_capacity(alloc, entries.len())?,
        nodes: round.nodes,
    };
    for entry in entries {
        let Entry { round: _, kind } = entry;
        let Kind::Done(sheet) = kind else {
            unreachable!();
        };
        if sheet.makespan == round.bound {
            return Ok(RoundResult {
                found: sheet.found,
                makespan: sheet.makespan,
                left: Vec::new(alloc),
                nodes: outcome.nodes + sheet.taken,
            });
        }
        outcome.take_in(sheet)?;
    }
    Ok(outcome)
}

/// Makes the standing after a round from `entries`, one for each piece in order. Fails with `NoMemory` if memory runs
/// out. For library callers: a run uses `outcome_of`, and keeps one store from round to round.
pub fn gather<'r>(
    alloc: Global,
    round: &'r Round<'r>,
    entries: Vec<Entry<'r>>,
) -> Result<Standing, NoMemory>
    requires { OneForEach (told round.now) entries.items }
    ensures gathered { IfOk result (λ s. IsGatheredOf round.now s) }
    ensures standing { IfOk result (λ s. IsStandingOf round.now.instance.now s) }
    ensures covers { IfOk result (λ s. GatheredCovers round.now s) }
{
    let RoundResult {
        found,
        makespan,
        left,
        nodes,
    } = outcome_of(alloc, round, entries)?;
    round.instance.keeps_limits();
    // In the order of the standing, whatever the plan's order: the rest first, so that what searches left comes before.
    // All that is put has a bound below the makespan, which is the horizon, so no node is only counted.
    let mut store = OpenNodes::new(alloc, Order::Kept, makespan, round.instance.operations());
    let mut distant = DistantNodes::none(alloc, makespan);
    store.put_nodes(alloc, makespan, round.rest.as_slice(), &mut distant)?;
    store.put_left(alloc, makespan, left, &mut distant)?;
    let open = store.take_all(alloc)?;
    let best = round.word.copied(alloc)?;
    Ok(Standing {
        word: found.unwrap_or(best),
        makespan,
        open,
        rounds: round.rounds + 1,
        nodes,
    })
}
