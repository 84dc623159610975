// `Desk`: dispatches and undoes a word operation by operation, and bounds it.
ghost use Rattle.std.specs.Prelude.{◌≡◌, ◌++◌, ◌∷◌, [], ◌<◌, IfOk, length};
ghost use Rattle.shop_model.specs.Word.{IsWord};
ghost use Rattle.shop_bound.specs.{Bound.lb, Desks.{IsUndone, IsWordOfShop, with_dispatch, nothing_dispatched}};

use crate::lower::BoundRoom;
use shop_model::{Instance, Placement};
use std::alloc::{AllocError as NoMemory, Global};
use std::marker::Model;

/// The times that a dispatch overwrites: when its job was ready, and when its machine was free, before the dispatch.
#[derive(Clone, Copy)]
pub(crate) struct Replaced {
    ready: u64,
    free: u64,
}

/// An instance and a word of it, dispatched operation by operation, with the word's lower bound in units of time. `new`
/// takes all memory; the later calls take none and never fail. For library callers: the program doesn't use `Desk`.
#[derive(Drop)]
pub struct Desk<'a> {
    instance: &'a Instance,
    placement: Placement,
    /// the job of each dispatch, in order
    jobs: Vec<u16>,
    /// the times that each dispatch overwrote, for `undo`
    replaced: Vec<Replaced>,
    room: BoundRoom,
}

impl<'a> Model for Desk<'a> {
    ghost use Rattle.shop_bound.specs.Desks.{DeskState};

    ghost Value = { DeskState };

    ghost use Rattle.shop_bound.specs.inner.Trails.{IsDesk};

    ghost view = { λ d. record { shop = d.instance.now; word = d.jobs.items } };

    ghost invariant = { IsDesk };
}

impl<'a> Desk<'a> {
    /// Makes a desk with no operation dispatched. Fails with `NoMemory` if memory runs out.
    pub fn new(alloc: Global, instance: &'a Instance) -> Result<Desk<'a>, NoMemory>
        ensures { IfOk result (λ d. d ≡ nothing_dispatched instance.now) }
    {
        instance.keeps_limits();
        let operations = instance.operations();
        let placement = Placement::none(alloc, instance)?;
        let jobs = Vec::with_capacity(alloc, operations)?;
        let replaced = Vec::with_capacity(alloc, operations)?;
        let room = BoundRoom::of(alloc, instance)?;
        Ok(Desk {
            instance,
            placement,
            jobs,
            replaced,
            room,
        })
    }

    /// Dispatches the next operation of `job`. Requires a job, counted from 0, with an operation left. Takes no memory.
    pub fn dispatch(&mut self, job: usize)
        requires { IsWord self.old.shop (self.old.word ++ job ∷ []) }
        ensures { self.new ≡ with_dispatch self.old job }
    {
        let step = self.placement.steps(job);
        let machine = self.instance.route(job)[step].machine;
        let ready = self.placement.ready(job);
        let free = self.placement.free(machine);
        self.jobs.push(job as u16).unwrap();
        self.replaced.push(Replaced { ready, free }).unwrap();
        let _start = self.placement.place_next(self.instance, job);
    }

    /// Takes back the last dispatch. Requires that an operation is dispatched. Takes no memory.
    pub fn undo(&mut self)
        requires { 0 < length self.old.word }
        ensures { IsUndone self.old self.new }
    {
        let job = self.jobs.pop().unwrap() as usize;
        let replaced = self.replaced.pop().unwrap();
        self.placement
            .take_back(self.instance, job, replaced.ready, replaced.free);
    }

    /// Returns the lower bound of the dispatched word, in units of time. The bound is below 2^50. Takes no memory.
    pub fn bound(&mut self) -> u64
        ensures bound { result ≡ lb self.old.shop self.old.word }
        ensures same { self.new ≡ self.old }
    {
        self.room.bound(self.instance, &self.placement)
    }

    /// The dispatched word: the job of each dispatch, in order. Takes no memory.
    pub fn jobs(&self) -> &[u16]
        ensures { result.now ≡ self.now.word }
    {
        self.jobs.as_slice()
    }

    /// States for proofs: the dispatched jobs are a word of the instance, which is within the limits. Does nothing.
    pub fn keeps_word(&self)
        ensures { IsWordOfShop self.now }
    {
        let _jobs = &self.jobs;
    }
}
