// Two heaps for the operations of one machine that have not ended: the unreleased by head, the released by tail.
ghost use Rattle.std.specs.Prelude.{◌≡◌, ◌+◌, ◌<◌, IfOk, OnSome, length, map};
ghost use Rattle.std.specs.BinaryHeap.{IsHeap, heap_capacity, heap_items, heap_len};
ghost use Rattle.std.proofs.Props.{props};
ghost use Rattle.shop_bound.specs.inner.HeapOrders.{by_head, by_tail};

use crate::triples::Triple;
use std::alloc::{AllocError as NoMemory, Global};
use std::cmp::Reverse;
use std::collections::BinaryHeap;

/// An operation, the time for which the machine has served it, and whether it has ended.
#[derive(Clone, Copy)]
pub(crate) struct Work {
    pub(crate) triple: Triple,
    pub(crate) spent: u64,
    pub(crate) done: bool,
}

/// Two heaps of operations, each operation named by its index in the list of triples.
#[derive(Drop)]
pub(crate) struct Queue {
    /// heads and indices of the operations to come, the least head on top
    coming: BinaryHeap<(Reverse<u64>, usize)>,
    /// tails and indices of the released operations, the greatest tail on top, the lowest index on ties
    released: BinaryHeap<(u64, Reverse<usize>)>,
    ghost least_first: { IsHeap by_head (heap_items coming) } by { Prim.hlevel props },
    ghost greatest_first: { IsHeap by_tail (heap_items released) } by { Prim.hlevel props },
}

impl Queue {
    ghost use Rattle.shop_bound.specs.{inner.Serving.fresh, inner.Queues.{IsWithoutFirst, KeepsRoom, TakesReleased}};
    ghost use Rattle.shop_bound.specs.inner.Queues.{ComeLater, HasRoom, IsFirst, IsNextRelease, IsQueue};

    /// Makes an empty queue with room for `n` operations. Fails with `NoMemory` if memory runs out.
    pub(crate) fn with_room(alloc: Global, n: usize) -> Result<Queue, NoMemory>
        ensures { IfOk result (λ q. HasRoom n q) }
    {
        let coming = BinaryHeap::with_capacity(alloc, n)?;
        let released = BinaryHeap::with_capacity(alloc, n)?;
        Ok(Queue { coming, released })
    }

    /// Refills the queue from `triples`: all operations are to come, and none is released.
    pub(crate) fn fill(&mut self, triples: &[Triple])
        requires { HasRoom (length triples.now) self.old }
        ensures queue { IsQueue (map fresh triples.now) 0 self.new }
        ensures room { KeepsRoom self.old self.new }
    {
        self.coming.clear();
        self.released.clear();
        for i in 0..triples.len() {
            self.coming.push((Reverse(triples[i].head), i)).unwrap();
        }
    }

    /// The next release: the least head of the operations to come; `None` if no operation is to come.
    pub(crate) fn next_release(&self) -> Option<u64>
        ensures { IsNextRelease (heap_items self.now.coming) result }
    {
        let next = self.coming.peek()?;
        Some(next.0.0)
    }

    /// The released operation to serve: the one of greatest tail, of lowest index on ties; `None` if there is none.
    pub(crate) fn next_to_serve(&self) -> Option<usize>
        ensures { IsFirst (heap_items self.now.released) result }
    {
        let first = self.released.peek()?;
        Some(first.1.0)
    }

    /// Takes out the operation to come of least head, and returns its index; `None` if none is released by `clock`.
    fn pop_released(&mut self, clock: u64) -> Option<usize>
        ensures taken { TakesReleased clock (heap_items self.old.coming) (heap_items self.new.coming) result }
        ensures fewer { OnSome result (heap_len self.new.coming + 1 ≡ heap_len self.old.coming) }
        ensures room { heap_capacity self.new.coming ≡ heap_capacity self.old.coming }
        ensures released { self.new.released ≡ self.old.released }
    {
        let release = self.next_release()?;
        if clock < release {
            return None;
        }
        let (_head, index) = self.coming.pop()?;
        Some(index)
    }

    /// Moves each operation that comes by `clock` from the operations to come to the released ones.
    pub(crate) fn release(&mut self, works: &[Work], clock: u64)
        requires { IsQueue works.now clock self.old }
        ensures queue { IsQueue works.now clock self.new }
        ensures later { ComeLater clock (heap_items self.new.coming) }
        ensures room { KeepsRoom self.old self.new }
    {
        while let Some(index) = self.pop_released(clock) {
            let tail = works[index].triple.tail;
            self.released.push((tail, Reverse(index))).unwrap();
        }
    }

    /// Takes the operation that `next_to_serve` returns, which has ended, out of the released operations.
    pub(crate) fn finish(&mut self)
        requires { 0 < heap_len self.old.released }
        ensures first { IsWithoutFirst (heap_items self.old.released) (heap_items self.new.released) }
        ensures fewer { heap_len self.new.released + 1 ≡ heap_len self.old.released }
        ensures room { heap_capacity self.new.released ≡ heap_capacity self.old.released }
        ensures coming { self.new.coming ≡ self.old.coming }
    {
        let _served = self.released.pop().unwrap();
    }
}
