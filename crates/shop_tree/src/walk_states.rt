// The states that a walk keeps: that of its current word, one in which it tries children, and spare ones.
ghost use Rattle.std.specs.Prelude.{◌≡◌, ℕ, ◌≤◌, List, [], ◌∷◌, ◌++◌, length, IfOk, OnOk};
ghost use Rattle.shop_model.specs.Word.{IsWord};
ghost use Rattle.shop_states.specs.{States.{HasSoleCandidate, IsOfSomeWord}, inner.WordStates.{IsRoom, IsStateOf}};
ghost use Rattle.shop_nodes.specs.Branching.{conflict};
ghost use Rattle.shop_tree.specs.inner.Held.{AreRooms, IsHeldOf};

mod trials;

use shop_lanes::StateLanes;
use shop_layout::LaidOut;
use shop_states::{Candidate, CandidateList, Dispatcher, State};
use std::alloc::{AllocError as NoMemory, Global};
use std::mem;

/// What is read while the children of a walk's current word are put on the stack.
#[derive(Clone, Copy)]
pub(crate) struct Branching<'w> {
    pub(crate) word: &'w [u16],
    /// the word's bound
    pub(crate) bound: u64,
    /// a child whose bound isn't below it is closed
    pub(crate) limit: u64,
    /// the candidates with `own` below `limit`
    pub(crate) candidates: &'w [Candidate],
    /// how many other children there are, all closed
    pub(crate) closed: usize,
    /// whether the children are best bounded together, before any of them is tried
    pub(crate) is_together: bool,
}

/// The states of a walk: that of its current word, one in which it tries children, and spare ones for pending children.
#[derive(Drop)]
pub(crate) struct WalkStates<'l, 'a, L: StateLanes> {
    pub(crate) dispatcher: Dispatcher<'l, 'a, L>,
    pub(crate) current: Box<State<L>>,
    trial: Box<State<L>>,
    spare: Vec<Box<State<L>>>,
    /// how many more states the walk may allocate
    unmade: usize,
    pub ghost rooms: { AreRooms (IsRoom L.StateLanes dispatcher.laid_out) current.value trial.value spare.items },
}

impl<'l, 'a, L: StateLanes> WalkStates<'l, 'a, L> {
    ghost use Rattle.shop_tree.specs.inner.WalkStates.{CanTake, HasTaken, HaveStayed, IsStateIn, Lists};

    /// Makes the current state and the trial's. Allows at most `most` further states, for pending children, which are
    /// allocated when they are needed. Fails with `NoMemory` if memory runs out.
    pub(crate) fn new(
        alloc: Global,
        laid_out: LaidOut<'l, 'a, L>,
        most: usize,
    ) -> Result<WalkStates<'l, 'a, L>, NoMemory>
        ensures laid_out { IfOk result (λ s. s.dispatcher.laid_out ≡ laid_out.entry) }
    {
        let dispatcher = Dispatcher::new(alloc, laid_out)?;
        Ok(WalkStates {
            current: Box::new(alloc, dispatcher.room(alloc)?)?,
            trial: Box::new(alloc, dispatcher.room(alloc)?)?,
            dispatcher,
            spare: Vec::new(alloc),
            unmade: most,
        })
    }

    /// Fills the current state from the word `path`.
    pub(crate) fn fill(&mut self, path: &[u16])
        requires word { IsWord self.old.dispatcher.laid_out.asked path.now }
        ensures laid_out { self.new.dispatcher.laid_out ≡ self.old.dispatcher.laid_out }
        ensures state { IsStateIn self.new path.now }
    {
        self.dispatcher.fill(path, &mut self.current);
    }

    /// Replaces `candidates` by the current word's candidates with `own` below `limit`. Returns how many are left out.
    #[inline(always)]
    pub(crate) fn list_candidates(&mut self, limit: u64, candidates: &mut CandidateList) -> usize
        requires state { IsOfSomeWord (IsStateIn self.old) }
        requires room { length self.old.dispatcher.laid_out.asked.jobs ≤ candidates.old.room }
        ensures laid_out { self.new.dispatcher.laid_out ≡ self.old.dispatcher.laid_out }
        ensures listed { (w : List ℕ) → IsStateIn self.old w → Lists self.old w limit candidates.new.items result }
        ensures room { candidates.new.room ≡ candidates.old.room }
        ensures current { self.new.current.value ≡ self.old.current.value }
    {
        self.dispatcher
            .list_candidates(&self.current, limit, candidates)
    }

    /// Dispatches, in the current state, the next operation of `job`, the only job in the conflict set.
    pub(crate) fn strike(&mut self, job: u16)
        requires sole { HasSoleCandidate self.old.dispatcher.laid_out.asked (IsStateIn self.old) job }
        ensures laid_out { self.new.dispatcher.laid_out ≡ self.old.dispatcher.laid_out }
        ensures state { (w : List ℕ) → IsStateIn self.old w → conflict self.old.dispatcher.laid_out.asked w ≡ job ∷ []
            → IsStateIn self.new (w ++ job ∷ []) }
    {
        self.dispatcher.strike(&mut self.current, job);
    }

    /// Dispatches `candidate` in the current state. Returns the child's bound if it is below `limit`; else returns
    /// `None`, and the current state is no word's state any more. `bound` is the bound of the word before the dispatch.
    #[inline(always)]
    pub(crate) fn dispatch_below(
        &mut self,
        candidate: Candidate,
        bound: u64,
        limit: u64,
    ) -> Option<u64>
        requires can { CanTake self.old candidate bound }
        ensures laid_out { self.new.dispatcher.laid_out ≡ self.old.dispatcher.laid_out }
        ensures taken { HasTaken self.old candidate bound limit result self.new.current.value }
    {
        let state = &mut self.current;
        self.dispatcher
            .dispatch_below(state, candidate, bound, limit)
    }

    /// Returns how many states are spare or can still be allocated.
    pub(crate) fn free(&self) -> usize {
        self.spare.len().saturating_add(self.unmade)
    }

    /// Keeps `state`, if there is one, as a spare state. Fails with `NoMemory` if memory runs out.
    pub(crate) fn give_back(&mut self, state: Option<Box<State<L>>>) -> Result<(), NoMemory>
        requires room { IsHeldOf (λ _ s. IsRoom L.StateLanes self.old.dispatcher.laid_out s) [] state }
        ensures laid_out { self.new.dispatcher.laid_out ≡ self.old.dispatcher.laid_out }
        ensures stayed { OnOk result (HaveStayed self.old self.new) }
    {
        let Some(state) = state else {
            return Ok(());
        };
        self.spare.push(state)?;
        Ok(())
    }

    /// Makes `state` the current state, and keeps the former one as a spare. If `state` is `None`, fills the current
    /// state from `word`. Fails with `NoMemory` if memory runs out.
    pub(crate) fn go_on_in(
        &mut self,
        state: Option<Box<State<L>>>,
        word: &[u16],
    ) -> Result<(), NoMemory>
        requires word { IsWord self.old.dispatcher.laid_out.asked word.now }
        requires state { IsHeldOf (IsStateOf L.StateLanes self.old.dispatcher.laid_out) word.now state }
        ensures laid_out { self.new.dispatcher.laid_out ≡ self.old.dispatcher.laid_out }
        ensures state { OnOk result (IsStateIn self.new word.now) }
    {
        let Some(state) = state else {
            self.fill(word);
            return Ok(());
        };
        let before = mem::replace(&mut self.current, state);
        self.spare.push(before)?;
        Ok(())
    }

    /// Returns a spare state, else a new one, else `None` if the walk may allocate no more. Fails with `NoMemory` if
    /// memory runs out.
    #[inline(always)]
    fn spare_state(&mut self, alloc: Global) -> Result<Option<Box<State<L>>>, NoMemory>
        ensures room { IfOk result (IsHeldOf (λ _ s. IsRoom L.StateLanes self.old.dispatcher.laid_out s) []) }
        ensures stayed { HaveStayed self.old self.new }
    {
        if let Some(state) = self.spare.pop() {
            return Ok(Some(state));
        }
        self.new_state(alloc)
    }

    /// Allocates a state; returns `None` if the walk may allocate no more. Fails with `NoMemory` if memory runs out.
    #[inline(never)]
    fn new_state(&mut self, alloc: Global) -> Result<Option<Box<State<L>>>, NoMemory>
        ensures room { IfOk result (IsHeldOf (λ _ s. IsRoom L.StateLanes self.old.dispatcher.laid_out s) []) }
        ensures stayed { HaveStayed self.old self.new }
    {
        if self.unmade == 0 {
            return Ok(None);
        }
        self.unmade -= 1;
        Ok(Some(Box::new(alloc, self.dispatcher.room(alloc)?)?))
    }

    /// Takes out the trial's state, and puts a spare or new one in its place. Returns `None` if neither can be had.
    /// Fails with `NoMemory` if memory runs out.
    pub(crate) fn take_trial(&mut self, alloc: Global) -> Result<Option<Box<State<L>>>, NoMemory>
        ensures taken { IfOk result (IsHeldOf (λ _ s. s ≡ self.old.trial.value) []) }
        ensures current { self.new.current.value ≡ self.old.current.value }
        ensures dispatcher { self.new.dispatcher ≡ self.old.dispatcher }
    {
        let Some(spare) = self.spare_state(alloc)? else {
            return Ok(None);
        };
        Ok(Some(mem::replace(&mut self.trial, spare)))
    }
}
