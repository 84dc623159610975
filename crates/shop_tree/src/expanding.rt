// Expands a walk's current word: follows sole candidates, then branches.
ghost use Rattle.std.specs.Prelude.{◌≡◌, ◌≤◌, ◌<◌, ◌+◌, length, [], ◌∷◌, ◌++◌, OnOk, IfOk};
ghost use Rattle.shop_model.specs.{Limits.IsWithinLimits, Word.IsWord};
ghost use Rattle.shop_states.specs.inner.WordStates.{IsStateOf};
ghost use Rattle.shop_tree.specs.inner.{Opens.AreChildren, WalkStates.IsStateIn};
ghost use Rattle.shop_tree.specs.inner.StateWalkers.{stage_of, AreHeld, HasGoneOn, HasStates, IsListedAt, StandsAs};
ghost use Rattle.shop_tree.specs.inner.{StateWalkers.StandsAt, Walkers.{gone_on, HasBranched, HasExpanded, IsInOrder}};

use crate::held::{put_rest, set_rest_below};
use crate::walk_states::Branching;
use crate::walkers::Walker;
use shop_lanes::StateLanes;
use shop_model::{SharedWord, Word};
use std::alloc::{AllocError as NoMemory, Global};

/// The most states that a word's children may take from other words. If none is left, children that are walked later
/// have none until their turns come.
const MOST_WANTED: usize = 3;

impl<'l, 'a, L: StateLanes> Walker<'l, 'a, L> {
    /// Appends `job` to the current word and spends one unit of the budget.
    #[inline(always)]
    fn take_job(&mut self, job: u16)
        requires some { 0 < self.old.budget }
        requires short { length self.old.path.items < self.old.operations }
        requires held { AreHeld (IsStateOf L.StateLanes self.old.states.dispatcher.laid_out)
            (self.old.path.items ++ job ∷ []) self.old.stack.items }
        requires state { IsStateIn self.old.states (self.old.path.items ++ job ∷ []) }
        ensures stage { stage_of self.new ≡ gone_on (stage_of self.old) job }
        ensures states { HasStates self.new }
        ensures state { IsStateIn self.new.states self.new.path.items }
    {
        self.budget -= 1;
        self.path.push(job).unwrap();
    }

    /// Leaves the current word, whose `count` children are all closed. If the budget lasts for these children, spends
    /// `count` units on them; else puts an entry for them on the stack. Fails with `NoMemory` if memory runs out.
    #[inline(always)]
    fn close(&mut self, count: usize) -> Result<(), NoMemory>
        requires word { IsWord self.old.instance.now self.old.path.items }
        requires limits { IsWithinLimits self.old.instance.now }
        requires short { length self.old.path.items < self.old.operations }
        requires closed { AreChildren self.old.instance.now self.old.incumbent self.old.path.items [] count }
        requires in_order { IsInOrder (stage_of self.old) }
        requires states { HasStates self.old }
        ensures expanded { OnOk result (HasExpanded (stage_of self.old) (stage_of self.new)) }
        ensures states { OnOk result (HasStates self.new) }
    {
        if self.budget >= count as u64 {
            self.budget -= count as u64;
            return Ok(());
        }
        put_rest(&mut self.stack, self.path.len(), count)
    }

    /// Follows the one listed candidate to its child, puts an entry for the `closed` other children, if any, on the
    /// stack, and returns the child's bound. If there is no other child, that is `bound`, the bound of the current
    /// word. If the child is closed too, calls `close` for all children instead and returns `None`. Fails with
    /// `NoMemory` if memory runs out.
    #[inline(always)]
    fn go_on(&mut self, bound: u64, closed: usize) -> Result<Option<u64>, NoMemory>
        requires one { length self.old.candidates.items ≡ 1 }
        requires some { 0 < self.old.budget }
        requires listed { IsListedAt self.old bound closed }
        ensures { IfOk result (HasGoneOn self.old self.new) }
    {
        let candidate = self.candidates.sole();
        if closed == 0 {
            self.states.strike(candidate.job);
            self.take_job(candidate.job);
            return Ok(Some(bound));
        }
        let Some(bound) = self.states.dispatch_below(candidate, bound, self.incumbent) else {
            self.close(closed + 1)?;
            return Ok(None);
        };
        put_rest(&mut self.stack, self.path.len(), closed)?;
        self.take_job(candidate.job);
        Ok(Some(bound))
    }

    /// Takes states from the lowest entries of the stack until as many are free as the children of this word want, at
    /// most `MOST_WANTED`, or no entry has a state left. Fails with `NoMemory` if memory runs out.
    #[inline(always)]
    fn reclaim(&mut self) -> Result<(), NoMemory>
        requires states { HasStates self.old }
        ensures stands { OnOk result (StandsAs self.old self.new) }
    {
        let wanted = self.candidates.len().min(MOST_WANTED);
        while self.states.free() < wanted && self.stripped < self.stack.len() {
            let state = self.stack[self.stripped].state.take();
            self.stripped += 1;
            self.states.give_back(state)?;
        }
        Ok(())
    }

    /// Puts the children of the current word on the stack: one entry for the closed ones, above it the open ones by
    /// bound, the least on top. `bound` is the word's bound; `closed` counts the children without a listed candidate.
    /// Fails with `NoMemory` if memory runs out.
    fn push_children(&mut self, alloc: Global, bound: u64, closed: usize) -> Result<(), NoMemory>
        requires listed { IsListedAt self.old bound closed }
        ensures branched { OnOk result (HasBranched (stage_of self.old) (stage_of self.new)) }
        ensures states { OnOk result (HasStates self.new) }
    {
        let below = self.stack.len();
        let depth = self.path.len();
        let left = self.operations - depth;
        self.stripped = self.stripped.min(below);
        put_rest(&mut self.stack, depth, closed)?;
        let candidates = self.candidates.as_slice();
        let branching = Branching {
            word: self.path.as_slice(),
            bound,
            limit: self.incumbent,
            candidates,
            closed,
            is_together: candidates.len().saturating_mul(left) >= self.together,
        };
        let all = self
            .states
            .try_candidates(alloc, &mut self.stack, &branching)?;
        set_rest_below(&mut self.stack, below, depth, closed, all)
    }

    /// Branches on the current word: leaves it if no candidate is listed, else puts its children on the stack. Takes
    /// states from the lowest entries of the stack if spare states run out. Fails with `NoMemory` if memory runs out.
    fn branch(&mut self, alloc: Global, bound: u64, closed: usize) -> Result<(), NoMemory>
        requires listed { IsListedAt self.old bound closed }
        ensures expanded { OnOk result (HasExpanded (stage_of self.old) (stage_of self.new)) }
        ensures states { OnOk result (HasStates self.new) }
    {
        if self.candidates.len() == 0 {
            return self.close(closed);
        }
        self.reclaim()?;
        self.push_children(alloc, bound, closed)
    }

    /// Keeps the current word, which is full, as the word found, and its bound `bound` as the incumbent. Fails with
    /// `NoMemory` if memory runs out.
    #[inline(never)]
    fn keep_found(&mut self, alloc: Global, bound: u64) -> Result<(), NoMemory>
        requires full { self.old.operations ≤ length self.old.path.items }
        requires at { StandsAt self.old bound }
        ensures expanded { OnOk result (HasExpanded (stage_of self.old) (stage_of self.new)) }
        ensures states { OnOk result (HasStates self.new) }
    {
        let word = SharedWord::of_path(alloc, self.path.as_slice())?;
        self.found = Some(Word::of_shared(word));
        self.incumbent = bound;
        Ok(())
    }

    /// Expands the current word, whose bound `bound` is below the incumbent. Follows a sole listed candidate while
    /// the budget lasts, then branches. Keeps a full word as found. Fails with `NoMemory` if memory runs out.
    pub(crate) fn expand(&mut self, alloc: Global, bound: u64) -> Result<(), NoMemory>
        requires at { StandsAt self.old bound }
        ensures expanded { OnOk result (HasExpanded (stage_of self.old) (stage_of self.new)) }
        ensures states { OnOk result (HasStates self.new) }
    {
        let mut bound = bound;
        while self.path.len() < self.operations {
            let closed = self
                .states
                .list_candidates(self.incumbent, &mut self.candidates);
            if self.candidates.len() != 1 || self.budget == 0 {
                return self.branch(alloc, bound, closed);
            }
            let Some(next) = self.go_on(bound, closed)? else {
                return Ok(());
            };
            bound = next;
        }
        self.keep_found(alloc, bound)
    }
}
