// A worker that takes piece numbers from a locked pool and searches these pieces.
ghost use Rattle.std.specs.{Prelude.{◌≡◌, ◌+◌, ◌<◌, ◌≤◌, length, true, IfOk, OnOk, IfSome, IfNone}, List.AllPairs};
ghost use Rattle.shop_runs.specs.{Entries.{told, is_hit}, Crews.IsEntryOf, Hits.{hits_of_round, IsHitOrEnd}};
ghost use Rattle.shop_workers.specs.Entries.{OfRound, IsPassed, LetsPass};

use crate::gates::Gate;
use shop_runs::{Entry, PieceSearch};
use std::alloc::{AllocError as NoMemory, Global};
use std::sync::{Mutex, Wait};

/// The piece numbers that no worker has taken yet: those from `next` up to `pieces` (excluded). For library callers:
/// the program doesn't use `Pool`.
#[derive(Drop)]
pub struct Pool {
    pieces: usize,
    next: usize,
    ghost within: { next ≤ pieces },
}

impl Pool {
    /// Makes a pool of the numbers below `pieces`, none of them taken.
    pub fn open(pieces: usize) -> Pool
        ensures pieces { result.pieces ≡ pieces }
        ensures next { result.next ≡ 0 }
    {
        Pool { pieces, next: 0 }
    }

    /// Takes the number `next`, and raises `next` by one. If no number is left, returns `None` and changes nothing.
    pub fn take(&mut self) -> Option<usize>
        ensures pieces { self.new.pieces ≡ self.old.pieces }
        ensures number { IfSome result (λ n. (n ≡ self.old.next) × (n < self.old.pieces)) }
        ensures rises { IfSome result (λ n. self.new.next ≡ n + 1) }
        ensures end { IfNone result (self.old.next ≡ self.old.pieces) }
        ensures same { IfNone result (self.new.next ≡ self.old.next) }
    {
        if self.next >= self.pieces {
            return None;
        }
        let number = self.next;
        self.next += 1;
        Some(number)
    }
}

/// Searches piece `number`, or passes it if `low` is lower, and returns its entry. Sets `low` to `number` if the
/// piece's makespan equals the opening bound. Before the worker's first such piece, `low` is the number of pieces.
fn search_or_pass<'r, P: PieceSearch<'r>, G: Gate>(
    alloc: Global,
    searcher: &mut P,
    low: &mut usize,
    number: usize,
    worker: usize,
    gate: &G,
) -> Result<Entry<'r>, NoMemory>
    requires piece { number < length (P.searched searcher.old).pieces.items }
    requires low { IsHitOrEnd (hits_of_round (P.searched searcher.old)) low.old }
    ensures round { P.searched searcher.new ≡ P.searched searcher.old }
    ensures low { IsHitOrEnd (hits_of_round (P.searched searcher.old)) low.new }
    ensures lower { low.new ≤ low.old }
    ensures entry { IfOk result (λ e. IsEntryOf (told (P.searched searcher.old)) number e) }
    ensures passed { IfOk result (λ e. low.old < number → IsPassed e.kind) }
    ensures hit { OnOk result (is_hit (told (P.searched searcher.old)) number ≡ true → low.new ≤ number) }
{
    if *low < number {
        return Ok(Entry::passed(searcher.round(), number, *low));
    }
    gate.before(worker, number);
    let sheet = searcher.search(alloc, number)?;
    let round = searcher.round();
    if sheet.makespan == round.bound {
        *low = number;
    }
    Ok(Entry::done(round, sheet))
}

/// Searches the pieces whose numbers worker `worker` takes from `pool`, and returns their entries. Once one's makespan
/// equals the opening bound, passes the worker's pieces of higher numbers. Fails with `NoMemory` if memory runs out.
pub fn search_pool<'r, P: PieceSearch<'r>, R: Wait, G: Gate>(
    rt: &R,
    alloc: Global,
    searcher: &mut P,
    pool: &Mutex<Pool>,
    gate: &G,
    worker: usize,
) -> Result<Vec<Entry<'r>>, NoMemory>
    ensures round { P.searched searcher.new ≡ P.searched searcher.old }
    ensures of { IfOk result (λ v. OfRound (told (P.searched searcher.old)) v.items) }
    ensures passes { IfOk result (λ v. AllPairs (LetsPass (told (P.searched searcher.old))) v.items) }
{
    let mut entries = Vec::new(alloc);
    let pieces = searcher.round().pieces.len();
    let mut low = pieces;
    for _ in rt.forever() {
        let Some(number) = pool.lock(rt).take() else {
            break;
        };
        if number >= pieces {
            break;
        }
        let entry = search_or_pass(alloc, searcher, &mut low, number, worker, gate)?;
        entries.push(entry)?;
    }
    Ok(entries)
}
