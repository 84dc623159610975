// The nodes that the search of a piece left.
ghost use Rattle.std.specs.{Prelude.{◌≡◌, ◌++◌, take, OnOk, IfOk}, Arc.arc_slice_items};
ghost use Rattle.shop_nodes.specs.{Branching.branch, Nodes.{AreNodes, words_of}};
ghost use Rattle.shop_nodes.specs.Halts.{IsClosed, IsHalt, IsPending, last_of, pending_words, stack_words};
ghost use Rattle.shop_nodes.specs.Left.{left_words, open_nodes, AreLeft};
ghost use Rattle.shop_nodes.specs.inner.HeldNodes.{nodes_below, halted_nodes, AreSharable, IsHaltWithin};

use crate::child_nodes::children;
use crate::halts::{Halt, Pending};
use crate::nodes::Node;
use shop_model::{Instance, SharedWord, Word};
use std::alloc::{AllocError as NoMemory, Global};
use std::marker::Model;
use std::sync::ArcSlice;

/// The nodes that the search of a piece left, in order: the children pending where the walk halted, if it did, then
/// the nodes of the piece that weren't taken. Contracts see the instance, the makespan and the nodes' words.
pub struct Left<'r> {
    instance: &'r Instance,
    makespan: u64,
    halt: Option<Halt>,
    untaken: &'r [Node],
}

// Not derived: a derived `Drop` would be compiled anew into each function that has what a search left.
impl Drop for Left<'_> {
    fn drop(self) {
        let Left {
            instance: _,
            makespan: _,
            halt: _,
            untaken: _,
        } = self;
    }
}

impl<'r> Model for Left<'r> {
    ghost use Rattle.shop_nodes.specs.Left.{Leaving, left_words, AreLeft};

    ghost Value = { Leaving };

    ghost view = { λ l. record {
      shop = l.instance.now;
      makespan = l.makespan;
      words = left_words l.instance.now l.halt l.untaken.now;
    } };

    ghost invariant = { λ l. AreLeft l.instance.now l.makespan l.halt l.untaken.now };
}

impl<'r> Left<'r> {
    /// Makes the record of a search that ended with `makespan` and left the children at `halt`, if any, then `untaken`.
    pub fn new(
        instance: &'r Instance,
        makespan: u64,
        halt: Option<Halt>,
        untaken: &'r [Node],
    ) -> Left<'r>
        requires { AreLeft instance.now makespan halt untaken.now }
        ensures { result ≡ record {
          shop = instance.now;
          makespan = makespan;
          words = left_words instance.now halt untaken.now;
        } }
    {
        Left {
            instance,
            makespan,
            halt,
            untaken,
        }
    }

    /// Returns the makespan, where the walk halted (`None` if it didn't), and the nodes that weren't taken. The open
    /// nodes are the children pending there, the last entry first, and then these nodes, as far as their bounds are
    /// below the makespan.
    pub fn parts(&self) -> (u64, &Option<Halt>, &[Node])
        ensures open { open_nodes self.now.shop self.now.makespan self.now.words
            ≡ nodes_below result.0 (halted_nodes result.1.now ++ result.2.now) }
        ensures within { IsHaltWithin result.1.now }
        ensures sharable { AreSharable result.2.now }
    {
        self.instance.keeps_limits();
        (self.makespan, &self.halt, self.untaken)
    }

    /// Lists all nodes left, in order. Fails with `NoMemory` if memory runs out. For library callers and tests: the
    /// program doesn't use `nodes`.
    pub fn nodes(&self, alloc: Global) -> Result<Vec<Node>, NoMemory>
        ensures words { IfOk result (λ v. words_of v.items ≡ self.now.words) }
        ensures nodes { IfOk result (λ v. AreNodes self.now.shop v.items) }
    {
        let mut nodes = match &self.halt {
            Some(halt) => pending_nodes(alloc, self.instance, self.makespan, halt)?,
            None => Vec::new(alloc),
        };
        add_copies(alloc, self.untaken, &mut nodes)?;
        Ok(nodes)
    }
}

/// Makes the last `count` children of the word `path[..depth]`, which are closed: of bounds of at least the makespan,
/// which contracts alone read. Fails with `NoMemory` if memory runs out.
fn last_children(
    alloc: Global,
    instance: &Instance,
    _makespan: u64,
    path: &[u16],
    depth: u32,
    count: u32,
) -> Result<Vec<Node>, NoMemory>
    requires { IsClosed instance.now _makespan path.now depth count }
    ensures words { IfOk result (λ v. words_of v.items
        ≡ last_of count (branch instance.now (take depth path.now))) }
    ensures nodes { IfOk result (λ v. AreNodes instance.now v.items) }
{
    instance.keeps_limits();
    let word = SharedWord::of_path(alloc, &path[..depth as usize])?;
    let parent = Node::new(alloc, instance, Word::of_shared(word))?;
    let mut all = children(alloc, instance, &parent)?;
    all.split_off(all.len() - count as usize)
}

/// Makes the nodes of `pending`: of an open child or of closed children. Fails with `NoMemory` if memory runs out.
fn nodes_of(
    alloc: Global,
    instance: &Instance,
    makespan: u64,
    path: &ArcSlice<u16, Global>,
    pending: Pending,
) -> Result<Vec<Node>, NoMemory>
    requires { IsPending instance.now makespan (arc_slice_items path.now) pending }
    ensures words { IfOk result (λ v. words_of v.items
        ≡ pending_words instance.now (arc_slice_items path.now) pending) }
    ensures nodes { IfOk result (λ v. AreNodes instance.now v.items) }
{
    match pending {
        Pending::Child { job, depth, bound } => {
            let word = Word::of_shared(SharedWord::along(path, depth, job)?);
            let mut nodes = Vec::with_capacity(alloc, 1)?;
            nodes.push(Node { word, bound })?;
            Ok(nodes)
        }
        Pending::Rest { depth, count } => {
            last_children(alloc, instance, makespan, path.as_slice(), depth, count)
        }
    }
}

/// Makes the nodes of all pending children at `halt`, from the last entry of `halt.pending` to the first. Fails with
/// `NoMemory` if memory runs out.
fn pending_nodes(
    alloc: Global,
    instance: &Instance,
    makespan: u64,
    halt: &Halt,
) -> Result<Vec<Node>, NoMemory>
    requires { IsHalt instance.now makespan halt.now }
    ensures words { IfOk result (λ v. words_of v.items
        ≡ stack_words instance.now (arc_slice_items halt.now.path) halt.now.pending.items) }
    ensures nodes { IfOk result (λ v. AreNodes instance.now v.items) }
{
    let pending = halt.pending.as_slice();
    let mut nodes = Vec::new(alloc);
    for index in (0..pending.len()).rev() {
        let mut next = nodes_of(alloc, instance, makespan, &halt.path, pending[index])?;
        nodes.append(&mut next)?;
    }
    Ok(nodes)
}

/// Adds copies of the nodes in `left` to `nodes`, in order. Fails with `NoMemory` if memory runs out.
fn add_copies(alloc: Global, left: &[Node], nodes: &mut Vec<Node>) -> Result<(), NoMemory>
    ensures { OnOk result (nodes.new.items ≡ nodes.old.items ++ left.now) }
{
    for node in left {
        nodes.push(node.copied(alloc)?)?;
    }
    Ok(())
}
