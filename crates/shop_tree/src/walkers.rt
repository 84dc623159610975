// Walks the nodes of a piece depth first, over states that are reused from piece to piece.
ghost use Rattle.std.specs.Prelude.{◌≡◌, ◌≤◌, ◌<◌, ◌^◌, length, vec_capacity, [], OnOk, IfOk};
ghost use Rattle.shop_model.specs.Shop.{operation_count};
ghost use Rattle.shop_nodes.specs.Nodes.{IsNode, AreNodes};
ghost use Rattle.shop_states.specs.inner.WordStates.{IsStateOf};
ghost use Rattle.shop_tree.specs.Searches.{Searches};

use crate::held::{Held, copy_pending};
use crate::walk_states::WalkStates;
use shop_lanes::StateLanes;
use shop_layout::LayoutFor;
use shop_model::{Instance, Word};
use shop_nodes::{Halt, Left, Node, Open, Pending, Piece, Sheet};
use shop_states::{CandidateList, State};
use std::alloc::{AllocError as NoMemory, Global};
use std::sync::ArcSlice;

/// The children of a word are bounded together from this product on: the number of its candidates times the operations
/// that it leaves for each machine, on average. To bound them together takes about as long as a trial. The more
/// candidates there are, the more trials it spares; and near full words fewer children are settled, and more of those
/// are walked, each in a state that is filled from its word. Measured from 10 x 10 to 200 x 15.
const TOGETHER: usize = 36;

/// A walk: the word found last, the incumbent (the makespan to beat), and how many more nodes it may take (`budget`);
/// its states, path to the current word, stack of pending children, and room for candidates.
pub(crate) struct Walker<'l, 'a, L: StateLanes> {
    /// the layout's; held here too, so that contracts see that it stays the same while states change
    pub(crate) instance: &'a Instance,
    pub(crate) operations: usize,
    /// `TOGETHER` times the number of machines, to compare with candidates times operations left on all machines
    pub(crate) together: usize,
    pub(crate) found: Option<Word>,
    pub(crate) incumbent: u64,
    pub(crate) budget: u64,
    pub(crate) states: WalkStates<'l, 'a, L>,
    pub(crate) path: Vec<u16>,
    pub(crate) stack: Vec<Held<State<L>>>,
    pub(crate) candidates: CandidateList,
    /// entries of the stack below this index have no states any more
    pub(crate) stripped: usize,
    pub ghost counted: { operations ≡ operation_count instance.now },
    pub ghost same_shop: { states.dispatcher.laid_out.asked ≡ instance.now },
    pub ghost room: { length instance.now.jobs ≤ candidates.room },
    pub ghost path_room: { operation_count instance.now ≤ vec_capacity path },
}

// Not derived: a derived `Drop` would be proved anew for each width of lanes.
impl<L: StateLanes> Drop for Walker<'_, '_, L> {
    fn drop(self) {
        let Walker {
            instance: _,
            operations: _,
            together: _,
            found: _,
            incumbent: _,
            budget: _,
            states: _,
            path: _,
            stack: _,
            candidates: _,
            stripped: _,
        } = self;
    }
}

impl<'l, 'a, L: StateLanes> Walker<'l, 'a, L> {
    ghost use Rattle.shop_nodes.specs.declared.halts.Pending.TheVariants.{Rest};
    ghost use Rattle.shop_nodes.specs.Halts.{open_child, halted_words, AreHalted, stack_words, word_at};
    ghost use Rattle.std.specs.Prelude.{MatchOption};
    ghost use Rattle.shop_tree.specs.inner.StateWalkers.{stage_of, HasReachedFrom, HasStates, StandsAt};
    ghost use Rattle.shop_tree.specs.inner.{Held.IsHeldOf, Walkers.{IsTurn, on_top, stack_walk, node_walk, walk_on}};
    ghost use Rattle.shop_tree.specs.inner.Walkers.{IsInOrder, HasWalked, HasWalkedUpTo};

    /// Makes a walk for pieces of the instance that `layout` lays out, with at most `most` states for pending children.
    /// Fails with `NoMemory` if memory runs out.
    // out of line: a caller with one inlined body for each of six kinds of lanes would take six times the stack memory
    #[inline(never)]
    pub(crate) fn new(
        alloc: Global,
        layout: LayoutFor<'l, 'a, L>,
        most: usize,
    ) -> Result<Walker<'l, 'a, L>, NoMemory>
        ensures instance { IfOk result (λ w. w.instance.now ≡ layout.entry.asked) }
        ensures states { IfOk result HasStates }
    {
        let laid_out = layout.laid_out();
        let instance = laid_out.instance();
        instance.keeps_limits();
        Ok(Walker {
            instance,
            operations: instance.operations(),
            together: TOGETHER * instance.machines(),
            found: None,
            incumbent: 0,
            budget: 0,
            states: WalkStates::new(alloc, laid_out, most)?,
            path: Vec::with_capacity(alloc, instance.operations())?,
            stack: Vec::new(alloc),
            candidates: CandidateList::new(alloc, instance.jobs())?,
            stripped: 0,
        })
    }

    /// Takes `child`, which lay on top of the stack. If its bound is below the incumbent, goes on to its word and
    /// returns the bound; else gives its state back and returns `None`. Fails with `NoMemory` if memory runs out.
    #[inline(always)]
    fn reach(&mut self, child: Open, state: Option<Box<State<L>>>) -> Result<Option<u64>, NoMemory>
        requires some { 0 < self.old.budget }
        requires on { IsInOrder (on_top (stage_of self.old) (open_child child)) }
        requires state { IsHeldOf (IsStateOf L.StateLanes self.old.states.dispatcher.laid_out)
            (word_at self.old.path.items child) state }
        requires states { HasStates self.old }
        ensures { IfOk result (λ told. MatchOption told
            (IsTurn (stage_of self.old) (open_child child) (stage_of self.new) × HasStates self.new)
            (HasReachedFrom (on_top (stage_of self.old) (open_child child)) self.new)) }
    {
        self.budget -= 1;
        if child.bound >= self.incumbent {
            self.states.give_back(state)?;
            return Ok(None);
        }
        self.path.truncate(child.depth as usize);
        self.path.push(child.job).unwrap();
        self.states.go_on_in(state, self.path.as_slice())?;
        Ok(Some(child.bound))
    }

    /// Spends the budget on `count` closed children, one unit each. Puts the children left over back on the stack.
    /// Fails with `NoMemory` if memory runs out.
    fn count_closed(&mut self, depth: u32, count: u32) -> Result<(), NoMemory>
        requires some { 0 < self.old.budget }
        requires on { IsInOrder (on_top (stage_of self.old) (Rest depth count)) }
        requires states { HasStates self.old }
        ensures turn { OnOk result (IsTurn (stage_of self.old) (Rest depth count) (stage_of self.new)) }
        ensures states { OnOk result (HasStates self.new) }
    {
        if self.budget >= count as u64 {
            self.budget -= count as u64;
            return Ok(());
        }
        let count = count - self.budget as u32;
        self.budget = 0;
        let pending = Pending::Rest { depth, count };
        let state = None;
        self.stack.push(Held { pending, state })?;
        Ok(())
    }

    /// Takes pending children off the stack, as long as the budget lasts, up to the first whose bound is below the
    /// incumbent. Goes on to its word and returns the bound; returns `None` if the stack or the budget ends first.
    /// Fails with `NoMemory` if memory runs out.
    #[inline(always)]
    fn reach_next(&mut self) -> Result<Option<u64>, NoMemory>
        requires in_order { IsInOrder (stage_of self.old) }
        requires states { HasStates self.old }
        ensures { IfOk result (λ told. MatchOption told
            (HasWalked (stage_of self.old) (stage_of self.new) (stack_walk (stage_of self.old)) × HasStates self.new)
            (HasReachedFrom (stage_of self.old) self.new)) }
    {
        while self.budget > 0 {
            let Some(held) = self.stack.pop() else {
                return Ok(None);
            };
            match held.pending {
                Pending::Child { job, depth, bound } => {
                    let child = Open { depth, job, bound };
                    if let Some(bound) = self.reach(child, held.state)? {
                        return Ok(Some(bound));
                    }
                }
                Pending::Rest { depth, count } => self.count_closed(depth, count)?,
            }
        }
        Ok(None)
    }

    /// Expands the current word, whose bound `bound` is below the incumbent, then walks the pending children on the
    /// stack, depth first, as long as the budget lasts. Fails with `NoMemory` if memory runs out.
    fn walk_from(&mut self, alloc: Global, bound: u64) -> Result<(), NoMemory>
        requires at { StandsAt self.old bound }
        ensures walked { OnOk result
            (HasWalked (stage_of self.old) (stage_of self.new) (walk_on (stage_of self.old))) }
        ensures states { OnOk result (HasStates self.new) }
    {
        let mut bound = bound;
        loop {
            // its one call, so that the whole walk is compiled as one function
            self.expand(alloc, bound)?;
            let Some(next) = self.reach_next()? else {
                return Ok(());
            };
            bound = next;
        }
    }

    /// Takes `node` and walks the tree below it, as long as the budget lasts. Fails with `NoMemory` if memory runs out.
    fn walk_node(&mut self, alloc: Global, node: &Node) -> Result<(), NoMemory>
        requires some { 0 < self.old.budget }
        requires node { IsNode self.old.instance.now node.now }
        requires empty { self.old.stack.items ≡ [] }
        requires states { HasStates self.old }
        ensures walked { OnOk result (HasWalked (stage_of self.old) (stage_of self.new)
            (node_walk (stage_of self.old) node.now)) }
        ensures states { OnOk result (HasStates self.new) }
    {
        self.budget -= 1;
        if node.bound >= self.incumbent {
            return Ok(());
        }
        self.instance.keeps_limits();
        node.word.write_to(&mut self.path)?;
        self.states.fill(self.path.as_slice());
        self.walk_from(alloc, node.bound)
    }

    /// Walks the tree below each of `nodes` in order, as long as the budget lasts. Returns how many were taken. Fails
    /// with `NoMemory` if memory runs out.
    fn walk_nodes(&mut self, alloc: Global, nodes: &[Node]) -> Result<usize, NoMemory>
        requires nodes { AreNodes self.old.instance.now nodes.now }
        requires empty { self.old.stack.items ≡ [] }
        requires states { HasStates self.old }
        ensures walked { IfOk result (λ k. HasWalkedUpTo (stage_of self.old) (stage_of self.new) nodes.now k) }
        ensures ended { IfOk result (λ k. 0 < self.new.budget → length nodes.now ≤ k) }
        ensures states { OnOk result (HasStates self.new) }
    {
        let mut taken = 0;
        while taken < nodes.len() && self.budget > 0 {
            self.walk_node(alloc, &nodes[taken])?;
            taken += 1;
        }
        Ok(taken)
    }

    /// Empties the stack, and keeps the states of its entries as spare ones. Fails with `NoMemory` if memory runs out.
    fn clear(&mut self) -> Result<(), NoMemory>
        requires states { HasStates self.old }
        ensures empty { OnOk result (self.new.stack.items ≡ []) }
        ensures instance { OnOk result (self.new.instance.now ≡ self.old.instance.now) }
        ensures states { OnOk result (HasStates self.new) }
    {
        while let Some(held) = self.stack.pop() {
            self.states.give_back(held.state)?;
        }
        Ok(())
    }

    /// Returns where the walk halted: the path to its current word and the pending children; `None` if there are none.
    /// Fails with `NoMemory` if memory runs out.
    fn halt(&self, alloc: Global) -> Result<Option<Halt>, NoMemory>
        requires in_order { IsInOrder (stage_of self.now) }
        ensures words { IfOk result (λ h. halted_words self.now.instance.now h
            ≡ stack_words self.now.instance.now self.now.path.items (stage_of self.now).stack) }
        ensures halt { IfOk result (λ h. AreHalted self.now.instance.now self.now.incumbent h) }
    {
        if self.stack.is_empty() {
            return Ok(None);
        }
        let path = ArcSlice::from_slice(alloc, self.path.as_slice())?;
        let pending = copy_pending(alloc, self.stack.as_slice())?;
        Ok(Some(Halt { path, pending }))
    }

    /// Searches `piece` like `Searcher::search`. Fails with `NoMemory` if memory runs out.
    pub(crate) fn search(
        &mut self,
        alloc: Global,
        piece: &'a Piece,
        best: u64,
        budget: u64,
    ) -> Result<Sheet<'a>, NoMemory>
        requires nodes { AreNodes self.old.instance.now piece.now.nodes.items }
        requires small { budget < 2 ^ 50 }
        requires states { HasStates self.old }
        ensures sheet { IfOk result (Searches self.old.instance.now piece.now best budget) }
        ensures instance { OnOk result (self.new.instance.now ≡ self.old.instance.now) }
        ensures states { OnOk result (HasStates self.new) }
    {
        self.clear()?;
        self.found = None;
        self.incumbent = best;
        self.budget = budget;
        let nodes = piece.nodes.as_slice();
        let index = self.walk_nodes(alloc, nodes)?;
        let halt = self.halt(alloc)?;
        let instance = self.instance;
        let makespan = self.incumbent;
        Ok(Sheet {
            number: piece.number,
            found: self.found.take(),
            makespan,
            left: Left::new(instance, makespan, halt, &nodes[index..]),
            taken: budget - self.budget,
            instance,
            piece,
            best,
            budget,
        })
    }
}
