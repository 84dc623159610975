// A stack of open nodes that knows the least of their bounds, for the order `Kept`.
ghost use Rattle.std.specs.Prelude.{◌≡◌, ◌==◌, ◌^◌, ◌-◌, ◌∷◌, [], length, reverse, OnOk, OnErr};
ghost use Rattle.shop_nodes.specs.inner.HeldNodes.{nodes_below};
ghost use Rattle.shop_runs.specs.inner.{NodeLists.least_of_bounds, KeptStacks.{with_bound, without_bound, AreFewEach}};
ghost use Rattle.shop_runs.specs.inner.Stacks.{IsNextOf};

use shop_nodes::{Node, SharedNode};
use std::alloc::{AllocError as NoMemory, Global};
use std::marker::Model;

/// The bound of nodes on a stack that have no lower bound below them: of one node and of `more` others.
#[derive(Drop)]
pub(crate) struct Least {
    pub(crate) bound: u64,
    pub(crate) more: usize,
}

/// Counts a node of `bound` that is put on a stack with these least bounds. Fails with `NoMemory` if memory runs out;
/// then nothing has changed.
#[tactic(auto, using(crate::proofs::KeptLemmas::one_more))]
fn count_put(leasts: &mut Vec<Least>, bound: u64) -> Result<(), NoMemory>
    requires { AreFewEach (2 ^ 64 - 1) (reverse leasts.old.items) }
    ensures put { OnOk result (reverse leasts.new.items ≡ with_bound bound (reverse leasts.old.items)) }
    ensures same { OnErr result (leasts.new.items ≡ leasts.old.items) }
{
    if let Some(least) = leasts.last_mut() {
        if least.bound < bound {
            return Ok(());
        }
        if least.bound == bound {
            least.more += 1;
            return Ok(());
        }
    }
    leasts.push(Least { bound, more: 0 })?;
    Ok(())
}

/// Counts a node of `bound` that is taken off a stack with these least bounds.
fn count_taken(leasts: &mut Vec<Least>, bound: u64)
    ensures { reverse leasts.new.items ≡ without_bound bound (reverse leasts.old.items) }
{
    let Some(least) = leasts.last_mut() else {
        return;
    };
    if least.bound != bound {
        return;
    }
    if least.more > 0 {
        least.more -= 1;
        return;
    }
    leasts.pop();
}

/// A stack of open nodes; `pop` takes the top one. A node takes 24 bytes. `leasts` has the bounds of nodes that have no
/// lower bound below them, each bound once. The last of these is the least bound of all. Contracts see the list of
/// nodes from the top down.
#[derive(Drop)]
pub(crate) struct KeptStack {
    nodes: Vec<SharedNode>,
    leasts: Vec<Least>,
}

impl Model for KeptStack {
    ghost use Rattle.shop_nodes.specs.declared.nodes.Node.{Node};
    ghost use Rattle.std.specs.Prelude.{List, reverse};
    ghost use Rattle.shop_runs.specs.inner.KeptStacks.{AreLeasts};

    ghost Value = { List Node };

    ghost view = { λ s. reverse s.nodes.items };

    ghost invariant = { λ s. AreLeasts s.nodes.items s.leasts.items };
}

impl KeptStack {
    /// Makes an empty stack. Takes no memory.
    pub(crate) fn new(alloc: Global) -> KeptStack
        ensures { result ≡ [] }
    {
        KeptStack {
            nodes: Vec::new(alloc),
            leasts: Vec::new(alloc),
        }
    }

    /// Puts `node` on top. A full stack gets room for only a quarter more nodes plus 4, as open nodes take most of a
    /// run's memory. Fails with `NoMemory` if memory runs out.
    pub(crate) fn push(&mut self, node: SharedNode) -> Result<(), NoMemory>
        ensures { OnOk result (self.new ≡ node ∷ self.old) }
    {
        if self.nodes.len() == self.nodes.capacity() {
            self.nodes.reserve_exact(self.nodes.len() / 4 + 4)?;
        }
        count_put(&mut self.leasts, node.bound())?;
        self.nodes.push(node)?;
        Ok(())
    }

    /// Takes the top node, or returns `None` if the stack is empty.
    #[tactic(auto, using(crate::proofs::KeptLemmas::still_popped))]
    pub(crate) fn pop(&mut self) -> Option<Node>
        ensures { IsNextOf result self.old self.new }
    {
        let node = self.nodes.pop()?;
        count_taken(&mut self.leasts, node.bound());
        Some(node.into_node())
    }

    /// Drops the nodes whose bounds are at least `makespan`.
    pub(crate) fn keep_below(&mut self, makespan: u64)
        ensures { self.new ≡ nodes_below makespan self.old }
    {
        self.nodes.retain(|node| node.bound() < makespan);
        self.leasts.retain(|least| least.bound < makespan);
    }

    /// Returns the least of `makespan` and the bounds of the nodes.
    #[tactic(auto, using(crate::proofs::KeptLemmas::top_tells, crate::proofs::KeptLemmas::none_tells))]
    pub(crate) fn least_bound(&self, makespan: u64) -> u64
        ensures { result ≡ least_of_bounds makespan self.now }
    {
        match self.leasts.last() {
            Some(least) => makespan.min(least.bound),
            None => makespan,
        }
    }

    /// Returns how many nodes the stack holds.
    pub(crate) fn len(&self) -> usize
        ensures { result ≡ length self.now }
    {
        self.nodes.len()
    }

    /// Returns whether the stack is empty.
    pub(crate) fn is_empty(&self) -> bool
        ensures { result ≡ (length self.now == 0) }
    {
        self.nodes.is_empty()
    }
}
