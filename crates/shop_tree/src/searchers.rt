// The search of a piece, in lanes of the width of its layout.
ghost use Rattle.std.specs.Prelude.{◌≡◌, ◌≤◌, ◌<◌, ◌^◌, IfOk, OnOk};
ghost use Rattle.shop_nodes.specs.Nodes.{AreNodes};
ghost use Rattle.shop_tree.specs.Searches.{Searches};

use crate::walkers::Walker;
use shop_lanes::{Lanes16, Lanes32, Lanes64};
use shop_layout::{LaneLayout, Layout};
use shop_model::Instance;
use shop_nodes::{Piece, Sheet};
use std::alloc::{AllocError as NoMemory, Global};
use std::marker::Model;

/// A walk in lanes of 16, 32 or 64 bits; in those of 16 bits for two, three, four or any number of blocks a machine.
enum LaneWalker<'l, 'a> {
    In16By2(Walker<'l, 'a, Lanes16<2>>),
    In16By3(Walker<'l, 'a, Lanes16<3>>),
    In16By4(Walker<'l, 'a, Lanes16<4>>),
    In16(Walker<'l, 'a, Lanes16<0>>),
    In32(Walker<'l, 'a, Lanes32>),
    In64(Walker<'l, 'a, Lanes64>),
}

// Not derived: a derived `Drop` would be compiled anew into each function that has a walk.
impl Drop for LaneWalker<'_, '_> {
    fn drop(self) {
        match self {
            LaneWalker::In16By2(_)
            | LaneWalker::In16By3(_)
            | LaneWalker::In16By4(_)
            | LaneWalker::In16(_)
            | LaneWalker::In32(_)
            | LaneWalker::In64(_) => {}
        }
    }
}

impl<'l, 'a> LaneWalker<'l, 'a> {
    ghost use Rattle.shop_tree.specs.inner.LaneWalkers.{shop_walked, HasLaneStates, IsWalkOf};

    /// Makes a walk for pieces of the instance that `layout` lays out, in its lanes, with at most `most` states for
    /// pending children. Fails with `NoMemory` if memory runs out.
    fn new(
        alloc: Global,
        layout: &'l Layout<'a>,
        most: usize,
    ) -> Result<LaneWalker<'l, 'a>, NoMemory>
        ensures { IfOk result (IsWalkOf layout.now.asked) }
    {
        Ok(match layout.lanes() {
            LaneLayout::In16By2(layout) => Self::In16By2(Walker::new(alloc, layout, most)?),
            LaneLayout::In16By3(layout) => Self::In16By3(Walker::new(alloc, layout, most)?),
            LaneLayout::In16By4(layout) => Self::In16By4(Walker::new(alloc, layout, most)?),
            LaneLayout::In16(layout) => Self::In16(Walker::new(alloc, layout, most)?),
            LaneLayout::In32(layout) => Self::In32(Walker::new(alloc, layout, most)?),
            LaneLayout::In64(layout) => Self::In64(Walker::new(alloc, layout, most)?),
        })
    }

    /// Searches `piece` like `Searcher::search`. Fails with `NoMemory` if memory runs out.
    #[inline(always)]
    fn search(
        &mut self,
        alloc: Global,
        piece: &'a Piece,
        best: u64,
        budget: u64,
    ) -> Result<Sheet<'a>, NoMemory>
        requires nodes { AreNodes (shop_walked self.old) piece.now.nodes.items }
        requires small { budget < 2 ^ 50 }
        requires states { HasLaneStates self.old }
        ensures sheet { IfOk result (Searches (shop_walked self.old) piece.now best budget) }
        ensures walk { OnOk result (IsWalkOf (shop_walked self.old) self.new) }
    {
        match self {
            LaneWalker::In16By2(walker) => walker.search(alloc, piece, best, budget),
            LaneWalker::In16By3(walker) => walker.search(alloc, piece, best, budget),
            LaneWalker::In16By4(walker) => walker.search(alloc, piece, best, budget),
            LaneWalker::In16(walker) => walker.search(alloc, piece, best, budget),
            LaneWalker::In32(walker) => walker.search(alloc, piece, best, budget),
            LaneWalker::In64(walker) => walker.search(alloc, piece, best, budget),
        }
    }
}

/// Roughly how many bytes the states of all pending children may take together: some 250 states at 50 x 15, one at
/// 1000 x 100.
const ROOM: usize = 400 << 10;

/// Returns how many bytes one number of a state takes in `layout`.
fn bytes_of_number(layout: &Layout) -> usize
    ensures few { result ≤ 8 }
    ensures some { 0 < result }
{
    match layout.lanes() {
        LaneLayout::In16By2(_)
        | LaneLayout::In16By3(_)
        | LaneLayout::In16By4(_)
        | LaneLayout::In16(_) => 2,
        LaneLayout::In32(_) => 4,
        LaneLayout::In64(_) => 8,
    }
}

/// Searches pieces of an instance in turn, over a layout that searchers share. The first search makes a walk's states
/// and stack, and later searches use them again. Its value in contracts is the instance.
pub struct Searcher<'l, 'a> {
    layout: &'l Layout<'a>,
    /// how many states the walk may keep for pending children
    most: usize,
    /// `None` before the first search, and after one that ran out of memory
    walker: Option<Box<LaneWalker<'l, 'a>>>,
}

// Not derived: a derived `Drop` would be compiled anew into each function that has a searcher.
impl Drop for Searcher<'_, '_> {
    fn drop(self) {
        let Searcher {
            layout: _,
            most: _,
            walker: _,
        } = self;
    }
}

impl<'l, 'a> Model for Searcher<'l, 'a> {
    ghost use Rattle.std.specs.Prelude.{IfSome};
    ghost use Rattle.shop_model.specs.Shop.{Shop};
    ghost use Rattle.shop_tree.specs.inner.LaneWalkers.{IsWalkOf};

    ghost Value = { Shop };

    ghost view = { λ s. s.layout.now.asked };

    ghost invariant = { λ s. IfSome s.walker (λ b. IsWalkOf s.layout.now.asked b.value) };
}

impl<'l, 'a> Searcher<'l, 'a> {
    ghost use Rattle.shop_tree.specs.inner.LaneWalkers.{IsWalkOf};

    /// Makes a searcher for pieces of the instance that `layout` lays out. Takes no memory.
    pub fn over(layout: &'l Layout<'a>) -> Searcher<'l, 'a>
        ensures { result ≡ layout.now.asked }
    {
        let instance = layout.instance();
        instance.keeps_limits();
        let numbers = instance.operations() + instance.jobs() + 1;
        Searcher::with_states(layout, ROOM / bytes_of_number(layout) / numbers)
    }

    /// Makes a searcher for pieces of the instance that `layout` lays out, with at most `most` states for pending
    /// children. A search fills the state of any other child from its word when it walks the child. The result of a
    /// search doesn't depend on `most`. Takes no memory.
    pub fn with_states(layout: &'l Layout<'a>, most: usize) -> Searcher<'l, 'a>
        ensures { result ≡ layout.now.asked }
    {
        Searcher {
            layout,
            most,
            walker: None,
        }
    }

    /// Takes out the walker that was kept, or makes a new one. Fails with `NoMemory` if memory runs out.
    fn take_walker(&mut self, alloc: Global) -> Result<Box<LaneWalker<'l, 'a>>, NoMemory>
        ensures walker { IfOk result (λ w. IsWalkOf self.old w.value) }
        ensures instance { self.new ≡ self.old }
    {
        if let Some(walker) = self.walker.take() {
            return Ok(walker);
        }
        let walker = LaneWalker::new(alloc, self.layout, self.most)?;
        Ok(Box::new(alloc, walker)?)
    }

    /// Searches `piece` by branch and bound: its nodes in order, depth first, the children of each node by bound.
    /// `best` is the makespan to beat. Takes at most `budget` nodes and leaves the others, in order. Loses no schedule:
    /// for each schedule under a node of the piece that ends before the sheet's makespan, some schedule under a node
    /// left ends no later. Fails with `NoMemory` if memory runs out.
    pub fn search(
        &mut self,
        alloc: Global,
        piece: &'a Piece,
        best: u64,
        budget: u64,
    ) -> Result<Sheet<'a>, NoMemory>
        requires nodes { AreNodes self.old piece.now.nodes.items }
        requires small { budget < 2 ^ 50 }
        ensures sheet { IfOk result (Searches self.old piece.now best budget) }
        ensures instance { self.new ≡ self.old }
    {
        let mut walker = self.take_walker(alloc)?;
        let sheet = walker.search(alloc, piece, best, budget)?;
        self.walker = Some(walker);
        Ok(sheet)
    }
}

/// Searches `piece` like `Searcher::search`, over a layout of its own. For library callers: the program doesn't use
/// `search`. Fails with `NoMemory` if memory runs out.
pub fn search<'r>(
    alloc: Global,
    instance: &'r Instance,
    piece: &'r Piece,
    best: u64,
    budget: u64,
) -> Result<Sheet<'r>, NoMemory>
    requires nodes { AreNodes instance.now piece.now.nodes.items }
    requires small { budget < 2 ^ 50 }
    ensures { IfOk result (Searches instance.now piece.now best budget) }
{
    let layout = Layout::of(alloc, instance)?;
    let mut searcher = Searcher::over(&layout);
    searcher.search(alloc, piece, best, budget)
}
