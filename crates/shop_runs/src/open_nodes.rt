// The store of a run's open nodes, in the order in which the next round takes them.
ghost use Rattle.std.specs.{Prelude.{◌≡◌, ◌==◌, ◌^◌, ◌≤◌, [], ◌∷◌, length, IfOk, OnOk, OnErr}, Arc.arc_slice_items};
ghost use Rattle.shop_model.specs.SharedWords.{CanBeShared};
ghost use Rattle.shop_nodes.specs.inner.HeldNodes.{child_nodes, stack_nodes, AreSharable, AreWithinWord, IsWithinWord};
ghost use Rattle.shop_runs.specs.inner.NodeLists.{least_of_bounds, AreBelow};
ghost use Rattle.shop_runs.specs.inner.Outcomes.{left_open, open_of};

use crate::bound_maps::BoundMap;
use crate::bound_rows::BoundRow;
use crate::distant_nodes::DistantNodes;
use crate::kept_stacks::KeptStack;
use crate::plans::Order;
use shop_model::SharedWord;
use shop_nodes::{Halt, Left, Node, Pending, SharedNode};
use std::alloc::{AllocError as NoMemory, Global};
use std::sync::ArcSlice;

/// The greatest opening makespan at which open nodes are kept in a row by bound, whose buckets then take 1 MB at most.
const MOST_IN_ROW: u64 = 65_536;

/// The most buckets of a row for each operation of the instance. A round goes through the empty buckets between two
/// stacks in some instructions each, and through all operations for each piece in some dozens.
const MOST_FOR_AN_OPERATION: u64 = 128;

/// For how many nodes `take` makes room beforehand, at most: fewer may be open than are asked for. A longer list grows
/// as nodes come.
const FEW_NODES: usize = 16;

/// Returns whether open nodes of bounds below `makespan` may be kept in a row of stacks, for an instance of
/// `operations` operations.
fn fits_row(makespan: u64, operations: usize) -> bool {
    makespan <= MOST_IN_ROW && makespan / MOST_FOR_AN_OPERATION <= operations as u64
}

/// Open nodes in the order in which the next round takes them: one stack for `Kept`, and one stack of words per bound
/// for `Bound`, in a row if bounds are small, else in a map. The time to put or take a node hardly grows with the
/// number of open nodes.
pub(crate) enum OpenNodes {
    AsKept(KeptStack),
    InRow(BoundRow),
    InMap(BoundMap),
}

// Not derived: a derived `Drop` would be compiled anew into each function that has a store.
impl Drop for OpenNodes {
    fn drop(self) {
        match self {
            OpenNodes::AsKept(_) | OpenNodes::InRow(_) | OpenNodes::InMap(_) => {}
        }
    }
}

impl OpenNodes {
    ghost use Rattle.shop_runs.specs.inner.Stores.{open_list, order_of, IsPut, IsTaken, IsKeptBelow, HasPopped};
    ghost use Rattle.shop_runs.specs.inner.Distant.{AreCountable, ArePutOrCounted, FitBelow, IsRetired};
    ghost use Rattle.shop_runs.specs.declared.plans.Order.TheVariants.{Kept};

    /// Makes an empty store, which will hold open nodes of bounds below `makespan` in `order`, of an instance of
    /// `operations` operations.
    pub(crate) fn new(alloc: Global, order: Order, makespan: u64, operations: usize) -> OpenNodes
        ensures none { open_list result ≡ [] }
        ensures order { order_of result ≡ order }
    {
        match order {
            Order::Kept => OpenNodes::AsKept(KeptStack::new(alloc)),
            Order::Bound => {
                if fits_row(makespan, operations) {
                    OpenNodes::InRow(BoundRow::new(alloc))
                } else {
                    OpenNodes::InMap(BoundMap::new(alloc))
                }
            }
        }
    }

    /// Puts `node` in its place: for `Kept` before all others, for `Bound` before the nodes of an equal or a greater
    /// bound. Fails with `NoMemory` if memory runs out.
    #[inline(always)]
    fn put(&mut self, alloc: Global, node: SharedNode) -> Result<(), NoMemory>
        ensures { OnOk result (IsPut node self.old self.new) }
    {
        match self {
            OpenNodes::AsKept(nodes) => nodes.push(node),
            OpenNodes::InRow(nodes) => nodes.put(alloc, node),
            OpenNodes::InMap(nodes) => nodes.put(alloc, node),
        }
    }

    /// Does nothing if the bound of `node` reaches `limit`. Else puts a copy of `node` into the store or, if its bound
    /// reaches the horizon of `distant`, only counts it there. Jobs that are shared stay shared; others are copied.
    /// Fails with `NoMemory` if memory runs out.
    fn put_copy(
        &mut self,
        alloc: Global,
        limit: u64,
        node: &Node,
        distant: &mut DistantNodes,
    ) -> Result<(), NoMemory>
        requires word { CanBeShared node.now.word }
        requires fits { FitBelow limit (node.now ∷ []) distant.old }
        ensures { OnOk result (ArePutOrCounted limit (node.now ∷ []) self.old distant.old self.new distant.new) }
    {
        if node.bound >= limit {
            return Ok(());
        }
        if node.bound >= distant.horizon {
            return distant.add(node.bound, 1);
        }
        self.put(alloc, SharedNode::of(alloc, node.copied(alloc)?)?)
    }

    /// Does what `put_copy` does for each of `nodes`, from the last to the first. Fails with `NoMemory` if memory runs
    /// out.
    pub(crate) fn put_nodes(
        &mut self,
        alloc: Global,
        limit: u64,
        nodes: &[Node],
        distant: &mut DistantNodes,
    ) -> Result<(), NoMemory>
        requires words { AreSharable nodes.now }
        requires fits { FitBelow limit nodes.now distant.old }
        ensures { OnOk result (ArePutOrCounted limit nodes.now self.old distant.old self.new distant.new) }
    {
        let mut left = nodes.len();
        while left > 0 {
            left -= 1;
            self.put_copy(alloc, limit, &nodes[left], distant)?;
        }
        Ok(())
    }

    /// Puts or counts the node of `pending`, as `put_copy` does, if it is an open child. Its word shares the jobs of
    /// `path`. Fails with `NoMemory` if memory runs out.
    #[inline(always)]
    fn put_if_open(
        &mut self,
        alloc: Global,
        limit: u64,
        path: &ArcSlice<u16, Global>,
        pending: Pending,
        distant: &mut DistantNodes,
    ) -> Result<(), NoMemory>
        requires within { IsWithinWord (arc_slice_items path.now) pending }
        requires fits { FitBelow limit (child_nodes (arc_slice_items path.now) pending) distant.old }
        ensures { OnOk result (ArePutOrCounted limit (child_nodes (arc_slice_items path.now) pending)
            self.old distant.old self.new distant.new) }
    {
        let Pending::Child { job, depth, bound } = pending else {
            return Ok(());
        };
        if bound >= limit {
            return Ok(());
        }
        if bound >= distant.horizon {
            return distant.add(bound, 1);
        }
        let word = SharedWord::along(path, depth, job)?;
        self.put(alloc, SharedNode::new(word, bound))
    }

    /// Does what `put_if_open` does for all that is pending at `halt`, from the first entry of `halt.pending` to the
    /// last, which is walked first. Fails with `NoMemory` if memory runs out.
    fn put_pending(
        &mut self,
        alloc: Global,
        limit: u64,
        halt: &Halt,
        distant: &mut DistantNodes,
    ) -> Result<(), NoMemory>
        requires within { AreWithinWord (arc_slice_items halt.now.path) halt.now.pending.items }
        requires fits { FitBelow limit (stack_nodes (arc_slice_items halt.now.path) halt.now.pending.items)
            distant.old }
        ensures { OnOk result (ArePutOrCounted limit
            (stack_nodes (arc_slice_items halt.now.path) halt.now.pending.items)
            self.old distant.old self.new distant.new) }
    {
        for &pending in &halt.pending {
            self.put_if_open(alloc, limit, &halt.path, pending, distant)?;
        }
        Ok(())
    }

    /// Puts or counts the nodes that a search left open and whose bounds are below `makespan`, from the last one to the
    /// first. Fails with `NoMemory` if memory runs out.
    fn put_open(
        &mut self,
        alloc: Global,
        makespan: u64,
        left: &Left,
        distant: &mut DistantNodes,
    ) -> Result<(), NoMemory>
        requires { FitBelow makespan (open_of left.now) distant.old }
        ensures { OnOk result (ArePutOrCounted makespan (open_of left.now) self.old distant.old self.new distant.new) }
    {
        let (own, halt, untaken) = left.parts();
        let limit = makespan.min(own);
        self.put_nodes(alloc, limit, untaken, distant)?;
        match halt {
            Some(halt) => self.put_pending(alloc, limit, halt, distant),
            None => Ok(()),
        }
    }

    /// Puts each node that searches left open and whose bound is below `makespan` into the store or, if its bound
    /// reaches the horizon of `distant`, only counts it there, from the end of `left` to its start. Fails with
    /// `NoMemory` if memory runs out.
    // out of line, so that what it holds takes no stack while pieces are searched
    #[inline(never)]
    pub(crate) fn put_left(
        &mut self,
        alloc: Global,
        makespan: u64,
        mut left: Vec<Left>,
        distant: &mut DistantNodes,
    ) -> Result<(), NoMemory>
        requires { FitBelow makespan (left_open left.items) distant.old }
        ensures { OnOk result (ArePutOrCounted makespan (left_open left.entry.items)
            self.old distant.old self.new distant.new) }
    {
        while let Some(of_sheet) = left.pop() {
            self.put_open(alloc, makespan, &of_sheet, distant)?;
        }
        Ok(())
    }

    /// Takes the first node, or returns `None` if no node is open. Fails with `NoMemory` if memory runs out.
    fn pop(&mut self) -> Result<Option<Node>, NoMemory>
        ensures { IfOk result (λ n. HasPopped n self.old self.new) }
    {
        match self {
            OpenNodes::AsKept(nodes) => Ok(nodes.pop()),
            OpenNodes::InRow(nodes) => Ok(nodes.pop()),
            OpenNodes::InMap(nodes) => nodes.pop(),
        }
    }

    /// Takes the first `most` nodes, or all if fewer are open, into the empty list `taken`. Fails with `NoMemory` if
    /// memory runs out.
    pub(crate) fn take(&mut self, most: usize, taken: &mut Vec<Node>) -> Result<(), NoMemory>
        requires { taken.old.items ≡ [] }
        ensures { OnOk result (IsTaken most taken.new.items self.old self.new) }
    {
        taken.reserve_exact(most.min(FEW_NODES))?;
        for _ in 0..most {
            let Some(node) = self.pop()? else {
                break;
            };
            taken.push(node)?;
        }
        Ok(())
    }

    /// Takes all nodes. Fails with `NoMemory` if memory runs out, or if they are 2^64 or more.
    pub(crate) fn take_all(&mut self, alloc: Global) -> Result<Vec<Node>, NoMemory>
        ensures taken { IfOk result (λ v. v.items ≡ open_list self.old) }
        ensures none { OnOk result (open_list self.new ≡ []) }
    {
        let count = self.count()?;
        let mut nodes = Vec::with_capacity(alloc, count)?;
        self.take(count, &mut nodes)?;
        Ok(nodes)
    }

    /// Drops the nodes whose bounds are at least `makespan`. As all bounds are below `opening`, does nothing unless
    /// `makespan` is below `opening` too. Fails with `NoMemory` if memory runs out.
    #[tactic(auto, using(crate::proofs::KeptBelow::none_closed))]
    pub(crate) fn keep_below(&mut self, opening: u64, makespan: u64) -> Result<(), NoMemory>
        requires { AreBelow opening (open_list self.old) }
        ensures { OnOk result (IsKeptBelow makespan self.old self.new) }
    {
        if opening <= makespan {
            return Ok(());
        }
        match self {
            OpenNodes::AsKept(nodes) => nodes.keep_below(makespan),
            OpenNodes::InRow(nodes) => nodes.keep_below(makespan),
            OpenNodes::InMap(nodes) => nodes.keep_below(makespan)?,
        }
        Ok(())
    }

    /// If the store is a row, may keep only the nodes of least bounds (whole bounds, until they are `most` or more) and
    /// count the others in `distant`, whose horizon is then at most one above the last bound kept: see
    /// `BoundRow::retire`. Fails with `NoMemory` if memory runs out.
    // out of line, so that what it holds takes no stack while pieces are searched
    #[inline(never)]
    pub(crate) fn retire(&mut self, most: usize, distant: &mut DistantNodes) -> Result<(), NoMemory>
        requires { AreCountable (open_list self.old) distant.old }
        ensures order { OnOk result (order_of self.new ≡ order_of self.old) }
        ensures retired { OnOk result (IsRetired most (open_list self.old) distant.old
            (open_list self.new) distant.new) }
        ensures kept { order_of self.old ≡ Kept → OnOk result (distant.new.horizon ≡ distant.old.horizon) }
    {
        match self {
            OpenNodes::InRow(nodes) => nodes.retire(most, distant),
            OpenNodes::AsKept(_) | OpenNodes::InMap(_) => Ok(()),
        }
    }

    /// Returns the least of `makespan` and the bounds of the open nodes.
    pub(crate) fn least_bound(&self, makespan: u64) -> u64
        ensures { result ≡ least_of_bounds makespan (open_list self.now) }
    {
        match self {
            OpenNodes::AsKept(nodes) => nodes.least_bound(makespan),
            OpenNodes::InRow(nodes) => nodes.least_bound(makespan),
            OpenNodes::InMap(nodes) => nodes.least_bound(makespan),
        }
    }

    /// Returns how many nodes are open. Fails with `NoMemory` if they are 2^64 or more, which no memory holds.
    pub(crate) fn count(&self) -> Result<usize, NoMemory>
        ensures count { IfOk result (λ n. n ≡ length (open_list self.now)) }
        ensures too_many { OnErr result (2 ^ 64 ≤ length (open_list self.now)) }
    {
        match self {
            OpenNodes::AsKept(nodes) => Ok(nodes.len()),
            OpenNodes::InRow(nodes) => nodes.count(),
            OpenNodes::InMap(nodes) => nodes.count(),
        }
    }

    /// Returns whether no node is open.
    pub(crate) fn is_empty(&self) -> bool
        ensures { result ≡ (length (open_list self.now) == 0) }
    {
        match self {
            OpenNodes::AsKept(nodes) => nodes.is_empty(),
            OpenNodes::InRow(nodes) => nodes.is_empty(),
            OpenNodes::InMap(nodes) => nodes.is_empty(),
        }
    }
}
