// Jackson's preemptive schedule of one machine: its greatest end is the one-machine bound.
ghost use Rattle.std.specs.Prelude.{◌≡◌, ◌+◌, ◌*◌, ◌<◌, ◌≤◌, length, map, vec_len, IfOk};
ghost use Rattle.std.specs.BinaryHeap.{heap_items};
ghost use Rattle.shop_bound.specs.{OneMachine.{one, IsSmall}, Schedules.JacksonState, declared.queues.Work.Work};
ghost use Rattle.shop_bound.specs.inner.Queues.{ComeLater, HasRoom, IsFirst, IsQueue, KeepsRoom};
ghost use Rattle.shop_bound.specs.inner.Serving.{IsReady, IsRun, fresh, triples_of, turns_left, undone};

use crate::queues::{Queue, Work};
use crate::triples::{NO_TRIPLE, Triple};
use std::alloc::{AllocError as NoMemory, Global};
use std::marker::Model;

/// Returns when the machine serves next: at `clock` if one is released or none is to come, else at the next release.
/// Moves the operations that come by then to the released ones.
fn ready_at(works: &[Work], queue: &mut Queue, clock: u64) -> u64
    requires { IsQueue works.now clock queue.old }
    ensures ready { IsReady works.now clock result }
    ensures queue { IsQueue works.now result queue.new }
    ensures later { ComeLater result (heap_items queue.new.coming) }
    ensures room { KeepsRoom queue.old queue.new }
{
    queue.release(works, clock);
    if queue.next_to_serve().is_some() {
        return clock;
    }
    let Some(release) = queue.next_release() else {
        return clock;
    };
    queue.release(works, release);
    release
}

/// Serves operation `chosen` from `clock` until the operation ends or until the next release, and returns that time.
/// Raises `best` to the operation's end plus tail if the operation ends.
fn serve(works: &mut [Work], queue: &mut Queue, clock: u64, chosen: usize, best: &mut u64) -> u64
    requires queue { IsQueue works.old clock queue.old }
    requires later { ComeLater clock (heap_items queue.old.coming) }
    requires chosen { IsFirst (heap_items queue.old.released) (Some chosen) }
    requires run { IsRun works.old clock best.old }
    requires small { IsSmall (triples_of works.old) }
    ensures queue { IsQueue works.new result queue.new }
    ensures room { KeepsRoom queue.old queue.new }
    ensures run { IsRun works.new result best.new }
    ensures same { triples_of works.new ≡ triples_of works.old }
    ensures fewer { turns_left works.new result < turns_left works.old clock }
    ensures single { undone works.old ≤ undone works.new + 1 }
{
    let work = works[chosen];
    let end = clock + (work.triple.time - work.spent);
    let stop = queue.next_release().unwrap_or(end).min(end);
    if stop < end {
        works[chosen].spent += stop - clock;
        return stop;
    }
    works[chosen] = Work {
        triple: work.triple,
        spent: work.triple.time,
        done: true,
    };
    queue.finish();
    let reached = end + work.triple.tail;
    *best = reached.max(*best);
    end
}

/// Writes the operations of `triples` over `works`, none of them served.
fn fill(works: &mut [Work], triples: &[Triple])
    requires { length works.old ≡ length triples.now }
    ensures { works.new ≡ map fresh triples.now }
{
    for i in 0..triples.len() {
        works[i] = Work {
            triple: triples[i],
            spent: 0,
            done: false,
        };
    }
}

/// Makes the whole preemptive schedule of the operations of `triples`, turn by turn. Returns its greatest end, tail
/// included, and counts its turns in `turns`. `works` and `queue` have room for these operations.
fn schedule(works: &mut [Work], queue: &mut Queue, triples: &[Triple], turns: &mut u64) -> u64
    requires works { length triples.now ≤ length works.old }
    requires queue { HasRoom (length triples.now) queue.old }
    requires small { IsSmall triples.now }
    ensures bound { result ≡ one triples.now }
    ensures turns { turns.new ≤ 2 * length triples.now }
    ensures each { length triples.now ≤ turns.new }
    ensures room { KeepsRoom queue.old queue.new }
{
    let works = &mut works[..triples.len()];
    fill(works, triples);
    queue.fill(triples);
    let mut best = 0;
    *turns = 0;
    let mut clock = ready_at(works, queue, 0);
    while let Some(chosen) = queue.next_to_serve() {
        let stop = serve(works, queue, clock, chosen, &mut best);
        clock = ready_at(works, queue, stop);
        *turns += 1;
    }
    best
}

/// Jackson's preemptive schedule of one machine (Carlier 1982): at each moment it serves the released operation of
/// greatest tail, the first in the list on ties, until the operation ends or until the next release. n operations take
/// n log n steps. `with_room` takes all memory; the later calls take none.
#[derive(Drop)]
pub struct Jackson {
    works: Vec<Work>,
    queue: Queue,
    last_turns: u64,
}

impl Model for Jackson {
    ghost use Rattle.std.specs.Prelude.{vec_len};
    ghost use Rattle.shop_bound.specs.{Schedules.JacksonState, inner.Queues.HasRoom};

    ghost Value = { JacksonState };

    ghost view = { λ j. record { room = vec_len j.works; turns = j.last_turns } };

    ghost invariant = { λ j. HasRoom (vec_len j.works) j.queue };
}

impl Jackson {
    /// Makes a `Jackson` with room for `n` operations. Fails with `NoMemory` if memory runs out.
    pub fn with_room(alloc: Global, n: usize) -> Result<Jackson, NoMemory>
        ensures { IfOk result (λ j. j ≡ record { room = n; turns = 0 }) }
    {
        let queue = Queue::with_room(alloc, n)?;
        let idle = Work {
            triple: NO_TRIPLE,
            spent: 0,
            done: true,
        };
        let works = vec![in alloc; idle; n]?;
        Ok(Jackson {
            works,
            queue,
            last_turns: 0,
        })
    }

    /// Returns the one-machine bound of `triples`: the greatest end, tail included, of their preemptive schedule; 0 if
    /// `triples` is empty. Requires room for `triples`, and greatest head + sum of times + greatest tail below 2^50.
    pub fn bound(&mut self, triples: &[Triple]) -> u64
        requires room { length triples.now ≤ self.old.room }
        requires small { IsSmall triples.now }
        ensures bound { result ≡ one triples.now }
        ensures turns { self.new.turns ≤ 2 * length triples.now }
        ensures each { length triples.now ≤ self.new.turns }
        ensures room { self.new.room ≡ self.old.room }
    {
        let works = self.works.as_mut_slice();
        schedule(works, &mut self.queue, triples, &mut self.last_turns)
    }

    /// The number of turns in the last schedule: from n to 2 n for n operations, 0 before the first schedule. A turn
    /// serves one operation until it ends or until the next release. For library callers and tests: the program doesn't
    /// use `turns`.
    pub fn turns(&self) -> u64
        ensures { result ≡ self.now.turns }
    {
        self.last_turns
    }
}
