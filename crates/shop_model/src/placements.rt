// Placements: how far each job is placed, and when jobs and machines are free for more.
ghost use Rattle.std.specs.Prelude.{◌≡◌, ◌<◌, IfOk, length, slice_index};
ghost use Rattle.shop_model.specs.Placements.{HasLast, HasNext, IsPlacement, PlacesNext, TakesBack, TellsNextStart};
ghost use Rattle.shop_model.specs.Word.{IsWord, none_placed, placing};

use crate::instances::Instance;
use crate::words::Word;
use std::alloc::{AllocError as NoMemory, Global};
use std::marker::Model;

/// The state once the operations of a word are placed: for each job how many of its steps are placed and when it is
/// ready for the next one, and for each machine when it is free.
#[derive(Drop)]
pub struct Placement {
    steps: Vec<usize>,
    ready: Vec<u64>,
    free: Vec<u64>,
}

impl Model for Placement {
    ghost use Rattle.shop_model.specs.Placements.{PlacementState};

    ghost Value = { PlacementState };

    ghost view = { λ p. record {
      steps = p.steps.items;
      ready = p.ready.items;
      free = p.free.items;
    } };
}

impl Placement {
    /// Makes the placement of no operation. Fails with `NoMemory` if memory runs out.
    pub fn none(alloc: Global, instance: &Instance) -> Result<Placement, NoMemory>
        ensures { IfOk result (λ s. IsPlacement instance.now (none_placed instance.now) s) }
    {
        let steps = vec![in alloc; 0; instance.jobs()]?;
        let ready = instance.releases(alloc)?;
        let free = vec![in alloc; 0; instance.machines()]?;
        Ok(Placement { steps, ready, free })
    }

    /// Makes the placement of `word`, which fits `instance`: places its operations in its order, each as soon as its
    /// job and its machine are free. Fails with `NoMemory` if memory runs out.
    pub fn of(alloc: Global, instance: &Instance, word: &Word) -> Result<Placement, NoMemory>
        requires { IsWord instance.now word.now }
        ensures { IfOk result (λ s. IsPlacement instance.now (placing instance.now word.now) s) }
    {
        let mut placement = Placement::none(alloc, instance)?;
        placement.place_word(instance, word);
        Ok(placement)
    }

    /// Places the operations of a word that fits the instance, where nothing is placed.
    fn place_word(&mut self, instance: &Instance, word: &Word)
        requires none { IsPlacement instance.now (none_placed instance.now) self.old }
        requires word { IsWord instance.now word.now }
        ensures { IsPlacement instance.now (placing instance.now word.now) self.new }
    {
        for index in 0..word.len() {
            let _start = self.place_next(instance, word.job(index));
        }
    }

    /// Places the next step of job `j` as soon as the job and the step's machine are free, and returns when the step
    /// begins. Requires a job with a step left.
    pub fn place_next(&mut self, instance: &Instance, j: usize) -> u64
        requires { HasNext instance.now j self.old }
        ensures placed { PlacesNext instance.now j self.old self.new }
        ensures start { TellsNextStart instance.now j self.old result }
    {
        let k = self.steps[j];
        let op = instance.route(j)[k];
        let start = self.ready[j].max(self.free[op.machine]);
        let finish = start + op.time;
        self.steps[j] = k + 1;
        self.ready[j] = finish;
        self.free[op.machine] = finish;
        start
    }

    /// Takes back the last placed step of job `j`. Before this step was placed, the job was ready at `ready`, and the
    /// step's machine was free at `free`. Requires a job with a placed step.
    pub fn take_back(&mut self, instance: &Instance, j: usize, ready: u64, free: u64)
        requires { HasLast instance.now j self.old }
        ensures { TakesBack instance.now j ready free self.old self.new }
    {
        let k = self.steps[j] - 1;
        let op = instance.route(j)[k];
        self.steps[j] = k;
        self.ready[j] = ready;
        self.free[op.machine] = free;
    }

    /// The number of steps of `job` that are placed.
    pub fn steps(&self, job: usize) -> usize
        requires { job < length self.now.steps }
        ensures { result ≡ slice_index self.now.steps job }
    {
        self.steps[job]
    }

    /// When the job is ready for its next step: when its last placed step ends, or its release if there is none.
    pub fn ready(&self, job: usize) -> u64
        requires { job < length self.now.ready }
        ensures { result ≡ slice_index self.now.ready job }
    {
        self.ready[job]
    }

    /// When the machine is free: when its last placed operation ends, or 0 if there is none.
    pub fn free(&self, machine: usize) -> u64
        requires { machine < length self.now.free }
        ensures { result ≡ slice_index self.now.free machine }
    {
        self.free[machine]
    }

    /// When each machine is free.
    pub fn machines_free(&self) -> &[u64]
        ensures { result.now ≡ self.now.free }
    {
        self.free.as_slice()
    }
}
