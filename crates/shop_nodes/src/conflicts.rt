// Finds the conflict set of a word (Giffler and Thompson 1960), from the next operation of each job.
ghost use Rattle.std.specs.Prelude.{◌≡◌, ◌<◌, length, IfOk};
ghost use Rattle.shop_model.specs.{Placements.IsPlacement, Word.{placing, IsWord, IsFull}};
ghost use Rattle.shop_nodes.specs.Branching.{conflict as conflict_set};

use shop_model::{Instance, Placement, Word};
use std::alloc::{AllocError as NoMemory, Global};

/// The next operation of a job: its machine, when it can begin (`head`), and when it can end.
#[derive(Clone, Copy)]
pub(crate) struct NextOperation {
    pub(crate) job: usize,
    pub(crate) machine: usize,
    pub(crate) head: u64,
    pub(crate) end: u64,
}

impl NextOperation {
    ghost use Rattle.shop_nodes.specs.inner.Choosing.{is_in_conflict};

    /// Returns whether this operation is `other`, or is on the machine of `other` and can begin before `other` can end.
    fn conflicts_with(&self, other: &NextOperation) -> bool
        ensures { result ≡ is_in_conflict self.now other.now }
    {
        self.job == other.job || self.machine == other.machine && self.head < other.end
    }
}

/// A word of an instance, with its placement.
#[derive(Drop)]
pub(crate) struct Placed<'a> {
    pub(crate) instance: &'a Instance,
    pub(crate) word: &'a Word,
    pub(crate) placement: &'a Placement,
    pub ghost is_word: { IsWord instance.now word.now },
    pub ghost is_placement: { IsPlacement instance.now (placing instance.now word.now) placement.now },
}

impl<'a> Placed<'a> {
    ghost use Rattle.shop_nodes.specs.inner.Choosing.{IsNext, IsNextIfAny, IsChosen, placing_of, conflicting_with};

    /// Returns the next operation of `job`, or `None` if the job has no operation left.
    fn next(&self, job: usize) -> Option<NextOperation>
        requires { job < length self.now.instance.now.jobs }
        ensures { IsNextIfAny self.now.instance.now self.now.word.now job result }
    {
        let route = self.instance.route(job);
        let step = self.placement.steps(job);
        if step >= route.len() {
            return None;
        }
        let operation = route[step];
        let ready = self.placement.ready(job);
        let head = ready.max(self.placement.free(operation.machine));
        Some(NextOperation {
            job,
            machine: operation.machine,
            head,
            end: head + operation.time,
        })
    }

    /// Chooses the next operation that can end first, that of the lowest job on ties; `None` if no operation is left.
    fn choose(&self) -> Option<NextOperation>
        ensures { IsChosen self.now result }
    {
        let mut chosen: Option<NextOperation> = None;
        for job in 0..self.instance.jobs() {
            let Some(next) = self.next(job) else {
                continue;
            };
            if let Some(best) = chosen {
                if best.end <= next.end {
                    continue;
                }
            }
            chosen = Some(next);
        }
        chosen
    }

    /// Lists the jobs whose next operations conflict with `chosen`, including the job of `chosen`. Fails with
    /// `NoMemory` if memory runs out.
    fn conflicting(&self, alloc: Global, chosen: NextOperation) -> Result<Vec<usize>, NoMemory>
        requires { IsNext self.now.instance.now (placing_of self.now) chosen.job chosen }
        ensures { IfOk result (λ v. v.items ≡ conflicting_with self.now chosen.job) }
    {
        let mut jobs = Vec::new(alloc);
        for job in 0..self.instance.jobs() {
            let Some(next) = self.next(job) else {
                continue;
            };
            if !next.conflicts_with(&chosen) {
                continue;
            }
            jobs.push(job)?;
        }
        Ok(jobs)
    }
}

/// Lists the conflict set of a word that isn't full, in ascending order: the job whose next operation can end first
/// (the lowest on ties), and each job whose next operation is on the same machine and can begin before that end
/// (Giffler and Thompson 1960). Fails with `NoMemory` if memory runs out. For library callers and tests: the program
/// doesn't use `conflict`.
pub fn conflict(alloc: Global, instance: &Instance, word: &Word) -> Result<Vec<usize>, NoMemory>
    requires word { IsWord instance.now word.now }
    requires open { IsFull instance.now word.now → ⊥ }
    ensures { IfOk result (λ v. v.items ≡ conflict_set instance.now word.now) }
{
    let placement = Placement::of(alloc, instance, word)?;
    let placed = Placed {
        instance,
        word,
        placement: &placement,
    };
    match placed.choose() {
        Some(chosen) => placed.conflicting(alloc, chosen),
        None => Ok(Vec::new(alloc)),
    }
}
