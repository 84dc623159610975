// Trials of a word's children: each in a copy of the state of the word, or in this state itself. Where children are
// bounded together first, settled ones go on the stack without a trial.
ghost use Rattle.std.specs.Prelude.{◌≡◌, ℕ, ◌≤◌, false, IsTrue, List, [], ◌∷◌, ◌++◌, All, IfOk, IfSome, OnOk, length};
ghost use Rattle.shop_states.specs.{States.IsOfSomeWord, inner.WordStates.{IsCandidate, IsRoom, IsStateOf}};
ghost use Rattle.shop_tree.specs.inner.WalkStates.{AreBounded, CanTake, CanTakeKnown, HasPutAll, HasTaken};
ghost use Rattle.shop_tree.specs.inner.{Tried.{AreRoomsFrom, HasGiven, HasPutTried}, WalkStates.{IsBranchingOf, IsStateIn}};

use super::{Branching, WalkStates};
use crate::held::{Held, bare_top, put, strip_top};
use shop_lanes::StateLanes;
use shop_nodes::Open;
use shop_states::{Candidate, State};
use std::alloc::{AllocError as NoMemory, Global};
use std::mem;

impl<'l, 'a, L: StateLanes> WalkStates<'l, 'a, L> {
    /// Dispatches `candidate` in the trial's state, and returns the child's bound if it is below `limit`. That state is
    /// a copy of the current one or, for the last trial, the current state itself, which the walk no longer needs.
    /// `bound` is the bound of the current word.
    fn try_candidate(
        &mut self,
        candidate: Candidate,
        is_last: bool,
        bound: u64,
        limit: u64,
    ) -> Option<u64>
        requires can { CanTake self.old candidate bound }
        ensures laid_out { self.new.dispatcher.laid_out ≡ self.old.dispatcher.laid_out }
        ensures taken { HasTaken self.old candidate bound limit result self.new.trial.value }
        ensures current { is_last ≡ false → self.new.current.value ≡ self.old.current.value }
    {
        if is_last {
            let child = self.dispatch_below(candidate, bound, limit);
            mem::swap(&mut self.current, &mut self.trial);
            return child;
        }
        let trial = &mut self.trial;
        self.dispatcher
            .dispatch_in_copy::<false>(&self.current, trial, candidate, bound, limit)
    }

    /// Bounds the children of the current word, that of `branching`, as `Dispatcher::bound_children` does, if they are
    /// best bounded together. Uses up the trial's state.
    #[inline(always)]
    fn bound_children(&mut self, branching: &Branching<'_>) -> Option<u64>
        requires branching { IsBranchingOf self.old branching.now }
        ensures laid_out { self.new.dispatcher.laid_out ≡ self.old.dispatcher.laid_out }
        ensures branching { IsBranchingOf self.new branching.now }
        ensures bounded { IfSome result (AreBounded self.new branching.now) }
    {
        if !branching.is_together {
            return None;
        }
        let bound = branching.bound;
        let candidates = branching.candidates;
        let room = &mut self.trial;
        self.dispatcher
            .bound_children(&self.current, room, candidates, bound)
    }

    /// Dispatches `candidate` in a copy of the current state, the trial's, after `bound_children`. Returns the child's
    /// bound if it is below `limit`. `bound` is the bound of the current word.
    #[inline(never)]
    pub(crate) fn try_child(&mut self, candidate: Candidate, bound: u64, limit: u64) -> Option<u64>
        requires can { CanTakeKnown self.old candidate bound }
        ensures taken { HasTaken self.old candidate bound limit result self.new.trial.value }
        ensures dispatcher { self.new.dispatcher ≡ self.old.dispatcher }
        ensures current { self.new.current.value ≡ self.old.current.value }
    {
        let trial = &mut self.trial;
        self.dispatcher
            .dispatch_in_copy::<true>(&self.current, trial, candidate, bound, limit)
    }

    /// Dispatches the candidate of `branching` with this `job`, whose child's bound is known already, in the current
    /// state itself. Returns whether the current state is the child's now: false if no candidate has this job.
    pub(crate) fn dispatch_settled(&mut self, job: u16, branching: &Branching<'_>) -> bool
        requires can { All (λ c. IsOfSomeWord (λ w. IsStateIn self.old w
            × IsCandidate self.old.dispatcher.laid_out w c)) branching.now.candidates.now }
        ensures laid_out { self.new.dispatcher.laid_out ≡ self.old.dispatcher.laid_out }
        ensures state { IsTrue result → (w : List ℕ) → IsStateIn self.old w
            → All (IsCandidate self.old.dispatcher.laid_out w) branching.now.candidates.now
            → IsStateIn self.new (w ++ job ∷ []) }
    {
        let candidates = branching.candidates;
        for index in 0..candidates.len() {
            let candidate = candidates[index];
            if candidate.job == job {
                let state = &mut self.current;
                self.dispatcher.dispatch_settled(state, candidate);
                return true;
            }
        }
        false
    }

    /// Puts `child`, whose state is the trial's, among its siblings on the stack, those from index `from` on. If no
    /// state is spare and none may be allocated, first gives back that of the topmost sibling, if it has one and the
    /// child goes above it, so that it can take the trial's place: what is walked next then keeps a state. If no state
    /// can take that place, the child goes without one. Fails with `NoMemory` if memory runs out.
    #[inline(always)]
    pub(crate) fn put_tried(
        &mut self,
        alloc: Global,
        stack: &mut Vec<Held<State<L>>>,
        from: usize,
        child: Open,
    ) -> Result<(), NoMemory>
        requires rooms { AreRoomsFrom (IsRoom L.StateLanes self.old.dispatcher.laid_out) from stack.old.items }
        requires from { from ≤ length stack.old.items }
        ensures laid_out { self.new.dispatcher.laid_out ≡ self.old.dispatcher.laid_out }
        ensures put { OnOk result (HasPutTried from child self.old.trial.value stack.old.items stack.new.items) }
        ensures current { OnOk result (self.new.current.value ≡ self.old.current.value) }
        ensures dispatcher { OnOk result (self.new.dispatcher ≡ self.old.dispatcher) }
    {
        if self.free() == 0 {
            let state = strip_top(stack, from, child.bound);
            self.give_back(state)?;
        }
        let state = self.take_trial(alloc)?;
        put(stack, from, child, state)
    }

    /// Tries each candidate of `branching`, and puts the children of its word with bounds below its limit on the stack:
    /// by bound, then by job, the first on top, each with its state while there is room. Returns how many children are
    /// closed: those tried in vain, and the others without a listed candidate. Where all children are bounded together,
    /// `settle_candidates` goes on instead of the trials. Fails with `NoMemory` if memory runs out.
    #[inline(always)]
    pub(crate) fn try_candidates(
        &mut self,
        alloc: Global,
        stack: &mut Vec<Held<State<L>>>,
        branching: &Branching<'_>,
    ) -> Result<usize, NoMemory>
        requires branching { IsBranchingOf self.old branching.now }
        ensures laid_out { self.new.dispatcher.laid_out ≡ self.old.dispatcher.laid_out }
        ensures children { IfOk result (HasPutAll self.old branching.now stack.old.items stack.new.items) }
    {
        if let Some(top) = self.bound_children(branching) {
            // `settle_candidates` isn't inlined, and reads its record from memory. It gets a copy, so that the record
            // that the caller made can stay in registers.
            let branching = *branching;
            return self.settle_candidates(alloc, stack, &branching, top);
        }
        let bound = branching.bound;
        let limit = branching.limit;
        let candidates = branching.candidates;
        let from = stack.len();
        let depth = branching.word.len() as u32;
        let mut closed = branching.closed;
        // Tries the last job first, so that of equal bounds the lower job is above.
        for index in (0..candidates.len()).rev() {
            let candidate = candidates[index];
            let is_last = index == 0;
            let Some(bound) = self.try_candidate(candidate, is_last, bound, limit) else {
                closed += 1;
                continue;
            };
            let job = candidate.job;
            self.put_tried(alloc, stack, from, Open { depth, job, bound })?;
        }
        Ok(closed)
    }

    /// Gives the child on top of the stack a state, by dispatching its job in the current state, which the walk no
    /// longer needs. Does so only if the child's index is at least `from`, it has no state, and another state can take
    /// the place of the current one. The child is one of `branching`, with a bound below its limit. Fails with
    /// `NoMemory` if memory runs out.
    fn give_current(
        &mut self,
        alloc: Global,
        stack: &mut Vec<Held<State<L>>>,
        from: usize,
        branching: &Branching<'_>,
    ) -> Result<(), NoMemory>
        requires branching { IsBranchingOf self.old branching.now }
        ensures laid_out { self.new.dispatcher.laid_out ≡ self.old.dispatcher.laid_out }
        ensures given { OnOk result (HasGiven (IsStateOf L.StateLanes self.old.dispatcher.laid_out)
            branching.now.word.now from stack.old.items stack.new.items) }
    {
        if self.free() == 0 {
            return Ok(());
        }
        let Some(child) = bare_top(stack, from) else {
            return Ok(());
        };
        if !self.dispatch_settled(child.job, branching) {
            return Ok(());
        }
        let Some(spare) = self.spare_state(alloc)? else {
            return Ok(());
        };
        let top = stack.len() - 1;
        stack[top].state = Some(mem::replace(&mut self.current, spare));
        Ok(())
    }

    /// Does what `try_candidates` does, after `bound_children` answered `top`. A child is settled if the bound of
    /// `branching` or the candidate's `own` reaches `top`: the greater of the two is then its bound, as a trial would
    /// find. A settled child with a bound below the limit goes on the stack without a trial and without a state. The
    /// one on top, which is walked next, gets a state by a dispatch in the current one, if a state is free to take that
    /// one's place; when the turn of another comes, its state is filled from its word. Children that aren't settled are
    /// tried in copies, since the current state is needed to the end. Fails with `NoMemory` if memory runs out.
    #[inline(never)]
    pub(crate) fn settle_candidates(
        &mut self,
        alloc: Global,
        stack: &mut Vec<Held<State<L>>>,
        branching: &Branching<'_>,
        top: u64,
    ) -> Result<usize, NoMemory>
        requires branching { IsBranchingOf self.old branching.now }
        requires bounded { AreBounded self.old branching.now top }
        ensures laid_out { self.new.dispatcher.laid_out ≡ self.old.dispatcher.laid_out }
        ensures children { IfOk result (HasPutAll self.old branching.now stack.old.items stack.new.items) }
    {
        let bound = branching.bound;
        let limit = branching.limit;
        let candidates = branching.candidates;
        let from = stack.len();
        let depth = branching.word.len() as u32;
        let mut closed = branching.closed;
        // The last job first, as in `try_candidates`.
        for index in (0..candidates.len()).rev() {
            let candidate = candidates[index];
            let job = candidate.job;
            let least = bound.max(candidate.own);
            if top <= least {
                if least < limit {
                    let bound = least;
                    put(stack, from, Open { depth, job, bound }, None)?;
                } else {
                    closed += 1;
                }
                continue;
            }
            let Some(bound) = self.try_child(candidate, bound, limit) else {
                closed += 1;
                continue;
            };
            self.put_tried(alloc, stack, from, Open { depth, job, bound })?;
        }
        self.give_current(alloc, stack, from, branching)?;
        Ok(closed)
    }
}
