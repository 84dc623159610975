// Open nodes for the order `Bound` if bounds are large: a map with a stack of words for each bound.
ghost use Rattle.std.specs.Prelude.{◌≡◌, ◌==◌, ◌^◌, ◌≤◌, [], length, IfOk, OnOk, OnErr};
ghost use Rattle.shop_nodes.specs.{Branching.insert_by, inner.HeldNodes.nodes_below};
ghost use Rattle.shop_runs.specs.{inner.NodeLists.least_of_bounds, inner.Stacks.IsNextOf};

use crate::stacks::Stack;
use shop_model::Word;
use shop_nodes::{Node, SharedNode};
use std::alloc::{AllocError as NoMemory, Global};
use std::collections::BTreeMap;
use std::collections::btree_map::Entry;
use std::marker::Model;

/// Open nodes by bound: `stacks` has the words of the open nodes of each bound, if there are any. Contracts see the
/// list of nodes, from the least bound up.
#[derive(Drop)]
pub(crate) struct BoundMap {
    stacks: BTreeMap<u64, Stack>,
}

impl Model for BoundMap {
    ghost use Rattle.std.specs.Prelude.{List};
    ghost use Rattle.shop_nodes.specs.declared.nodes.Node.{Node};
    ghost use Rattle.shop_runs.specs.inner.Stacks.{nodes_by_bound};

    ghost Value = { List Node };

    ghost view = { λ m. nodes_by_bound m.stacks.entries };
}

impl BoundMap {
    /// Makes an empty map. Takes no memory.
    pub(crate) fn new(alloc: Global) -> BoundMap
        ensures { result ≡ [] }
    {
        BoundMap {
            stacks: BTreeMap::new(alloc),
        }
    }

    /// Puts `node` before all other nodes of its bound. Fails with `NoMemory` if memory runs out.
    pub(crate) fn put(&mut self, alloc: Global, node: SharedNode) -> Result<(), NoMemory>
        ensures { OnOk result (self.new ≡ insert_by (λ n. n.bound) node self.old) }
    {
        let (word, bound) = node.into_parts();
        match self.stacks.entry(bound)? {
            Entry::Occupied(stack) => stack.into_mut().push(alloc, word)?,
            Entry::Vacant(vacant) => {
                vacant.insert(Stack::of(alloc, word));
            }
        }
        Ok(())
    }

    /// Takes the first node of least bound, or returns `None` if no node is open. Fails with `NoMemory` if memory runs
    /// out.
    pub(crate) fn pop(&mut self) -> Result<Option<Node>, NoMemory>
        ensures { IfOk result (λ n. IsNextOf n self.old self.new) }
    {
        let Some((bound, mut stack)) = self.stacks.pop_first() else {
            return Ok(None);
        };
        let word = match stack.pop_if_more() {
            Some(word) => {
                self.stacks.insert(bound, stack)?;
                word
            }
            None => stack.into_last(),
        };
        let word = Word::of_shared(word);
        Ok(Some(Node { word, bound }))
    }

    /// Drops the nodes whose bounds are at least `makespan`. Fails with `NoMemory` if memory runs out.
    #[tactic(auto, using(crate::proofs::StackLemmas::below_is))]
    pub(crate) fn keep_below(&mut self, makespan: u64) -> Result<(), NoMemory>
        ensures { OnOk result (self.new ≡ nodes_below makespan self.old) }
    {
        let _above = self.stacks.split_off(&makespan)?;
        Ok(())
    }

    /// Returns the least of `makespan` and the bounds of the nodes.
    #[tactic(auto, using(crate::proofs::StackLemmas::least_is))]
    pub(crate) fn least_bound(&self, makespan: u64) -> u64
        ensures { result ≡ least_of_bounds makespan self.now }
    {
        match self.stacks.first_key_value() {
            Some((bound, _)) => makespan.min(*bound),
            None => makespan,
        }
    }

    /// Returns how many nodes the map holds. Fails with `NoMemory` if they are 2^64 or more, which no memory holds.
    pub(crate) fn count(&self) -> Result<usize, NoMemory>
        ensures count { IfOk result (λ n. n ≡ length self.now) }
        ensures too_many { OnErr result (2 ^ 64 ≤ length self.now) }
    {
        let mut count = 0_usize;
        for (_, stack) in &self.stacks {
            count = count.checked_add(stack.count()?).ok_or(NoMemory)?;
        }
        Ok(count)
    }

    /// Returns whether the map holds no node.
    pub(crate) fn is_empty(&self) -> bool
        ensures { result ≡ (length self.now == 0) }
    {
        self.stacks.is_empty()
    }
}
