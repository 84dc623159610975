// `Dispatcher`: fills states of words, lists their candidates, and dispatches operations in them.
ghost use Rattle.std.specs.Prelude.{◌≡◌, ℕ, ◌≤◌, ◌^◌, List, [], ◌∷◌, ◌++◌, All, false, IfOk, IfSome, IsTrue, length};
ghost use Rattle.std.specs.Prelude.{max, min};
ghost use Rattle.shop_model.specs.Word.{IsWord};
ghost use Rattle.shop_bound.specs.{Bound.lb, Conflicts.conflict};
ghost use Rattle.shop_states.specs.States.{CanDispatch, HasDispatched, HasListed, HasSoleCandidate, IsOfSomeWord};
ghost use Rattle.shop_states.specs.States.{AreOwnsBelow, ListsBelow, Settles};
ghost use Rattle.shop_states.specs.inner.WordStates.{IsCandidate, IsRoom, IsStateOf, IsStateWith, KnowsChild};

use crate::advances::{advance_below, advance_unbounded, dispatch_in_copy, set_next, strike};
use crate::beginnings::Beginning;
use crate::candidate_lists::{CandidateList, list_candidates};
use crate::dispatches::Dispatch;
use crate::fills::fill_state;
use crate::lane_bounds::BoundRange;
use crate::machine_raises::MachineRaises;
use crate::siblings::bound_children;
use crate::states::{Candidate, State};
use shop_lanes::StateLanes;
use shop_layout::LaidOut;
use std::alloc::{AllocError as NoMemory, Global};
use std::marker::Model;

/// A number that is above the bound of every word of an instance within the limits.
const ABOVE_BOUNDS: u64 = 1 << 50;

/// The least number of candidates whose children are bounded together. A sole child is only tried.
const LEAST_TOGETHER: usize = 2;

/// Returns the range for the child's bound: from the greater of `bound`, the bound of the word itself, and the
/// candidate's `own` up to `limit`.
#[inline(always)]
fn range_of(candidate: Candidate, bound: u64, limit: u64, ceilings: &[u64]) -> BoundRange
    ensures least { result.least ≡ max bound candidate.own }
    ensures limit { result.limit ≡ min limit (2 ^ 50) }
    ensures ceilings { result.ceilings.now ≡ ceilings.now }
{
    BoundRange {
        least: bound.max(candidate.own),
        limit: limit.min(ABOVE_BOUNDS),
        ceilings,
    }
}

/// Returns `ceilings` if they are those of the child that is dispatched, else none.
#[inline(always)]
fn ceilings_if(is_known: bool, ceilings: &[u64]) -> &[u64]
    ensures known { IsTrue is_known → result.now ≡ ceilings.now }
    ensures unknown { is_known ≡ false → result.now ≡ [] }
{
    if is_known { ceilings } else { &[] }
}

/// An instance laid out in lanes, with what is used again and again to fill states, list candidates and dispatch
/// operations. Contracts see the layout, which never changes, and the ceilings.
pub struct Dispatcher<'l, 'a, L: StateLanes> {
    laid_out: LaidOut<'l, 'a, L>,
    /// ready[job]: when the job is ready after the word whose state was filled last
    ready: Vec<u64>,
    /// free[machine]: when the machine is free after the word whose state was filled last
    free: Vec<u64>,
    /// the first jobs of the last filled word with their placement, since the next word often shares them
    beginning: Beginning,
    /// how far noted heads rose on each machine, in a dispatch or where children are bounded together; empty between
    raises: MachineRaises<L>,
    /// owns[i]: when, in lanes, a machine's operations and their tails end if the one at index `i` goes first; there is
    /// room for the machine with the most operations
    owns: Vec<L::Number>,
    /// ceilings[machine]: the ceiling of the machine in lanes, see `siblings.rt`, for the word whose children were
    /// bounded together last
    ceilings: Vec<u64>,
}

// Not derived: a derived `Drop` would be compiled anew into each function that has a walk.
impl<L: StateLanes> Drop for Dispatcher<'_, '_, L> {
    fn drop(self) {
        let Dispatcher {
            laid_out: _,
            ready: _,
            free: _,
            beginning: _,
            raises: _,
            owns: _,
            ceilings: _,
        } = self;
    }
}

impl<'l, 'a, L: StateLanes> Model for Dispatcher<'l, 'a, L> {
    ghost use Rattle.std.specs.Prelude.{length};
    ghost use Rattle.shop_states.specs.inner.{Buffers.AreBuffersOf, WordStates.DispatcherState};

    ghost Value = { DispatcherState };

    ghost view = { λ d. record { laid_out = d.laid_out; ceilings = d.ceilings.items } };

    ghost invariant = { λ d. AreBuffersOf d.laid_out.shop d.laid_out.layout (length d.ready.items)
        (length d.free.items) d.beginning d.raises (length d.owns.items) (length d.ceilings.items) };
}

impl<'l, 'a, L: StateLanes> Dispatcher<'l, 'a, L> {
    /// Makes a dispatcher over `laid_out`. Fails with `NoMemory` if memory runs out.
    pub fn new(
        alloc: Global,
        laid_out: LaidOut<'l, 'a, L>,
    ) -> Result<Dispatcher<'l, 'a, L>, NoMemory>
        ensures { IfOk result (λ d. d.laid_out ≡ laid_out.entry) }
    {
        let instance = laid_out.instance();
        instance.keeps_limits();
        let ready = vec![in alloc; 0; instance.jobs()]?;
        let free = vec![in alloc; 0; instance.machines()]?;
        let beginning = Beginning::new(alloc, &laid_out)?;
        let grid = laid_out.grid();
        let raises = MachineRaises::new(alloc, instance.machines())?;
        let owns = vec![in alloc; L::narrowed(0); grid.most_positions()]?;
        let ceilings = vec![in alloc; 0; instance.machines()]?;
        Ok(Dispatcher {
            laid_out,
            ready,
            free,
            beginning,
            raises,
            owns,
            ceilings,
        })
    }

    /// Makes room for a state. Fails with `NoMemory` if memory runs out.
    #[inline(never)]
    pub fn room(&self, alloc: Global) -> Result<State<L>, NoMemory>
        ensures { IfOk result (IsRoom L.StateLanes self.now.laid_out) }
    {
        let jobs = self.laid_out.instance().jobs();
        let lanes = L::new(alloc, self.laid_out.grid().positions(), jobs)?;
        let next = vec![in alloc; 0; jobs]?;
        Ok(State { lanes, next })
    }

    /// Makes `state` the state of the word `path`.
    pub fn fill(&mut self, path: &[u16], state: &mut State<L>)
        requires room { IsRoom L.StateLanes self.old.laid_out state.old }
        requires word { IsWord self.old.laid_out.asked path.now }
        ensures state { IsStateOf L.StateLanes self.old.laid_out path.now state.new }
        ensures same { self.new ≡ self.old }
    {
        // called for its contract: the layout differs from the instance in the numbers of machines alone
        let _ = self.laid_out.grid();
        let next = state.next.as_mut_slice();
        let ready = self.ready.as_mut_slice();
        let free = self.free.as_mut_slice();
        self.beginning
            .place_word(&self.laid_out, next, ready, free, path);
        fill_state(&mut state.lanes, &self.laid_out, next, ready, free);
    }

    /// Replaces `candidates` by the jobs of the conflict set with `own` below `limit`, in ascending order. Returns how
    /// many jobs are left out. Never leaves out the only job of the set if the word's bound is below `limit`.
    pub fn list_candidates(
        &mut self,
        state: &State<L>,
        limit: u64,
        candidates: &mut CandidateList,
    ) -> usize
        requires state { IsOfSomeWord (λ w. IsStateOf L.StateLanes self.old.laid_out w state.now) }
        requires room { length self.old.laid_out.asked.jobs ≤ candidates.old.room }
        ensures listed { (w : List ℕ) → IsStateOf L.StateLanes self.old.laid_out w state.now
            → ListsBelow self.old.laid_out.asked w limit (IsCandidate self.old.laid_out w)
            (conflict self.old.laid_out.asked w) candidates.new.items result }
        ensures low { AreOwnsBelow limit candidates.new.items }
        ensures room { candidates.new.room ≡ candidates.old.room }
        ensures same { self.new ≡ self.old }
    {
        let owns = self.owns.as_mut_slice();
        list_candidates(candidates, owns, state, self.laid_out.grid(), limit)
    }

    /// Dispatches the next operation of `job`, the only job in the conflict set. The word's bound stays as it was.
    #[inline(always)]
    pub fn strike(&self, state: &mut State<L>, job: u16)
        requires { HasSoleCandidate self.now.laid_out.asked
            (λ w. IsStateOf L.StateLanes self.now.laid_out w state.old) job }
        ensures { (w : List ℕ) → IsStateOf L.StateLanes self.now.laid_out w state.old
            → conflict self.now.laid_out.asked w ≡ job ∷ []
            → IsStateOf L.StateLanes self.now.laid_out (w ++ job ∷ []) state.new }
    {
        strike(state, self.laid_out.grid(), job as usize);
    }

    /// Dispatches the next operation of `candidate.job`. Returns the bound of the extended word if it is below `limit`;
    /// else returns `None`, and `state` is no word's state any more. `bound` is the bound of the former word.
    #[inline(always)]
    pub fn dispatch_below(
        &mut self,
        state: &mut State<L>,
        candidate: Candidate,
        bound: u64,
        limit: u64,
    ) -> Option<u64>
        requires can { CanDispatch self.old.laid_out.asked
            (IsStateWith L.StateLanes self.old.laid_out candidate state.old) candidate.job bound }
        ensures dispatched { HasDispatched self.old.laid_out.asked
            (IsStateWith L.StateLanes self.old.laid_out candidate state.old)
            (λ w. IsStateOf L.StateLanes self.old.laid_out w state.new) candidate.job bound limit result }
        ensures room { IsRoom L.StateLanes self.old.laid_out state.new }
        ensures same { self.new ≡ self.old }
    {
        let grid = self.laid_out.grid();
        let range = range_of(candidate, bound, limit, &[]);
        let job = candidate.job as usize;
        let dispatch = Dispatch::of(state, grid, job);
        let position = dispatch.position;
        let lanes = &mut state.lanes;
        let next = state.next.as_slice();
        let told = advance_below(lanes, &mut self.raises, grid, next, dispatch, &range)?;
        set_next(lanes, state.next.as_mut_slice(), grid, job, position);
        Some(told)
    }

    /// Makes `to` a copy of `from`, and does there what `dispatch_below` does. If `IS_KNOWN`, the last call of
    /// `bound_children` was for this word and returned a number; the bound then takes fewer steps.
    #[inline(always)]
    pub fn dispatch_in_copy<const IS_KNOWN: bool>(
        &mut self,
        from: &State<L>,
        to: &mut State<L>,
        candidate: Candidate,
        bound: u64,
        limit: u64,
    ) -> Option<u64>
        requires to { IsRoom L.StateLanes self.old.laid_out to.old }
        requires can { CanDispatch self.old.laid_out.asked
            (λ w. IsStateWith L.StateLanes self.old.laid_out candidate from.now w
            × (IsTrue IS_KNOWN → KnowsChild self.old.laid_out self.old.ceilings w candidate.job))
            candidate.job bound }
        ensures dispatched { HasDispatched self.old.laid_out.asked
            (IsStateWith L.StateLanes self.old.laid_out candidate from.now)
            (λ w. IsStateOf L.StateLanes self.old.laid_out w to.new) candidate.job bound limit result }
        ensures room { IsRoom L.StateLanes self.old.laid_out to.new }
        ensures same { self.new ≡ self.old }
    {
        let grid = self.laid_out.grid();
        let ceilings = ceilings_if(IS_KNOWN, self.ceilings.as_slice());
        let range = range_of(candidate, bound, limit, ceilings);
        let job = candidate.job as usize;
        dispatch_in_copy(from, to, &mut self.raises, grid, job, &range)
    }

    /// Bounds all children of the word of `state` together, before any candidate is dispatched. `bound` is the bound of
    /// that word, and `list_candidates` listed the candidates. Returns a number: if `bound` or the `own` of a candidate
    /// is at least this number, the bound of the child is the greater of the two. Returns `None` if each child is to be
    /// bounded alone. Uses up `room`, and keeps ceilings for `dispatch_in_copy`.
    pub fn bound_children(
        &mut self,
        state: &State<L>,
        room: &mut State<L>,
        candidates: &[Candidate],
        bound: u64,
    ) -> Option<u64>
        requires room { IsRoom L.StateLanes self.old.laid_out room.old }
        requires can { HasListed self.old.laid_out.asked
            (λ w. IsStateOf L.StateLanes self.old.laid_out w state.now)
            (IsCandidate self.old.laid_out) candidates.now bound }
        ensures bounded { IfSome result (λ top. (w : List ℕ) (limit others : ℕ)
            → IsStateOf L.StateLanes self.old.laid_out w state.now → bound ≡ lb self.old.laid_out.asked w
            → ListsBelow self.old.laid_out.asked w limit (IsCandidate self.old.laid_out w)
            (conflict self.old.laid_out.asked w) candidates.now others
            → Settles self.old.laid_out.asked w bound top candidates.now
            × All (λ c. KnowsChild self.old.laid_out self.new.ceilings w c.job) candidates.now) }
        ensures room { IsRoom L.StateLanes self.old.laid_out room.new }
        ensures same { self.new.laid_out ≡ self.old.laid_out }
    {
        if candidates.len() < LEAST_TOGETHER {
            return None;
        }
        room.lanes.copy_from(&state.lanes);
        let lanes = &mut room.lanes;
        let ceilings = self.ceilings.as_mut_slice();
        let grid = self.laid_out.grid();
        let next = state.next.as_slice();
        let raises = &mut self.raises;
        Some(bound_children(lanes, raises, ceilings, grid, next, candidates, bound))
    }

    /// Dispatches the next operation of `candidate.job`. The bound of the extended word is known already, so nothing is
    /// bounded.
    #[inline(never)]
    pub fn dispatch_settled(&self, state: &mut State<L>, candidate: Candidate)
        requires { IsOfSomeWord (IsStateWith L.StateLanes self.now.laid_out candidate state.old) }
        ensures state { (w : List ℕ) → IsStateWith L.StateLanes self.now.laid_out candidate state.old w
            → IsStateOf L.StateLanes self.now.laid_out (w ++ candidate.job ∷ []) state.new }
        ensures room { IsRoom L.StateLanes self.now.laid_out state.new }
    {
        let grid = self.laid_out.grid();
        let dispatch = Dispatch::of(state, grid, candidate.job as usize);
        advance_unbounded(state, grid, dispatch);
    }
}
