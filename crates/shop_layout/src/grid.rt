// `Grid`: the operations of an instance by position, with their times and tails in lanes.
ghost use Rattle.std.specs.Prelude.{◌≡◌, ◌<◌, length, slice_index, ◌≤◌, ◌+◌, ◌-◌, ◌*◌, ◌^◌, map};
ghost use Rattle.shop_lanes.specs.{Rows.{AreBlocks, lanes_between}, Spans.{AreOwnSpans, FitOwnSpans}};
ghost use Rattle.shop_layout.specs.{Lanes.rows_of, Positions.{AreEven, HoldsMachines}};

use crate::fixed_rows::Rows;
use crate::layouts::Layout;
use crate::legs::{Leg, Routes};
use crate::positions::Positions;
use shop_lanes::{LaneRows, StateLanes};
use std::marker::Model;

/// The layout of an instance, with times and tails in lanes of the width of `L`. Contracts see the layout without
/// lanes.
#[derive(Drop)]
pub struct Grid<'l, L: StateLanes> {
    positions: &'l Positions,
    /// the legs of all routes
    legs: &'l [Leg],
    /// for each position, where the legs after its operation begin
    behind: &'l [usize],
    /// the number of blocks of each machine, or 0 if not all machines have equally many
    blocks_each: usize,
    rows: &'l Rows<L::Number>,
}

impl<'l, L: StateLanes> Model for Grid<'l, L> {
    ghost use Rattle.std.specs.Prelude.{◌≡◌, map};
    ghost use Rattle.shop_layout.specs.{Positions.{AreEven, LayoutState}, Legs.all_legs, inner.RouteRows.IsBehind};

    ghost Value = { LayoutState };

    ghost view = { λ g. g.positions.now };

    ghost invariant = { λ g. (map L.value g.rows.now.times.items ≡ g.positions.now.times)
        × (map L.value g.rows.now.tails.items ≡ g.positions.now.tails)
        × AreEven g.positions.now.blocks g.blocks_each
        × AreEven g.positions.now.blocks L.EACH
        × (g.legs.now ≡ all_legs g.positions.now)
        × IsBehind g.positions.now g.behind.now };
}

impl<'l, L: StateLanes> Grid<'l, L> {
    /// Makes a grid of `layout`; `rows` has the layout's times and tails in lanes.
    pub(crate) fn of(layout: &'l Layout<'_>, rows: &'l Rows<L::Number>) -> Grid<'l, L>
        requires times { map L.value rows.now.times.items ≡ layout.now.layout.times }
        requires tails { map L.value rows.now.tails.items ≡ layout.now.layout.tails }
        requires even { AreEven layout.now.layout.blocks L.EACH }
        ensures { result ≡ layout.now.layout }
    {
        let positions = &layout.positions;
        Grid {
            positions,
            legs: layout.legs.as_slice(),
            behind: layout.behind.as_slice(),
            blocks_each: layout.blocks_each,
            rows,
        }
    }

    /// The rows of the layout that a walk along a route reads.
    #[inline(always)]
    pub fn routes(&self) -> Routes
        ensures { result ≡ self.now }
    {
        Routes::of(self.positions, self.legs, self.behind)
    }

    /// The first block of `machine`; the number of all blocks if `machine` is the number of machines.
    #[inline(always)]
    pub fn block(&self, machine: usize) -> usize
        requires { machine < length self.now.blocks }
        ensures { result ≡ slice_index self.now.blocks machine }
    {
        let positions = self.positions;
        positions.blocks[machine] as usize
    }

    /// The number of blocks of each machine, or 0 if not all machines have equally many.
    #[inline(always)]
    pub fn blocks_each(&self) -> usize
        ensures { AreEven self.now.blocks result }
    {
        self.blocks_each
    }

    /// The number of blocks of each machine if the lanes have code for that number alone, else 0: the constant `EACH`.
    #[inline(always)]
    pub fn fixed_blocks_each(&self) -> usize
        ensures is { result ≡ L.EACH }
        ensures even { AreEven self.now.blocks result }
    {
        // reads nothing: brings in the invariant, by which `EACH` fits the blocks
        let _ = &self.positions;
        L::EACH
    }

    /// The first block of `machine`, and the block after its last block. `each` is the number of blocks of each
    /// machine, or 0 if unknown.
    #[inline(always)]
    pub fn blocks_of(&self, each: usize, machine: usize) -> (usize, usize)
        requires even { AreEven self.now.blocks each }
        requires small { machine + 1 < 2 ^ 64 }
        requires known { machine + 1 < length self.now.blocks }
        ensures first { result.0 ≡ slice_index self.now.blocks machine }
        ensures behind { result.1 ≡ slice_index self.now.blocks (machine + 1) }
        ensures count { 0 < each → result.1 ≡ result.0 + each }
    {
        if each == 0 {
            return (self.block(machine), self.block(machine + 1));
        }
        let first = each * machine;
        (first, first + each)
    }

    /// The number of all positions.
    #[inline(always)]
    pub fn positions(&self) -> usize
        ensures { result ≡ length self.now.jobs }
    {
        let positions = self.positions;
        positions.jobs.len()
    }

    /// The number of positions of the machine that has the most of them.
    pub fn most_positions(&self) -> usize
        ensures { HoldsMachines self.now result }
    {
        let positions = self.positions;
        let blocks = positions.blocks.as_slice();
        let mut most = 0;
        for behind in 1..blocks.len() {
            // first blocks rise from machine to machine: nothing saturates
            most = blocks[behind].saturating_sub(blocks[behind - 1]).max(most);
        }
        8 * most as usize
    }

    /// The head, the time and the tail of the operation at each position, in lanes.
    #[inline(always)]
    pub fn rows<'a>(&'a self, lanes: &'a L) -> LaneRows<'a, L::Number>
        requires times { length self.now.times ≡ length (L.heads lanes.now) }
        requires tails { length self.now.tails ≡ length self.now.times }
        ensures heads { map L.value result.heads.now ≡ L.heads lanes.now }
        ensures times { map L.value result.times.now ≡ self.now.times }
        ensures tails { map L.value result.tails.now ≡ self.now.tails }
    {
        let rows = self.rows;
        lanes.rows(rows.times.as_slice(), rows.tails.as_slice())
    }

    /// Writes to the start of `owns` the own span of each waiting operation in blocks `from` up to `to` (excluded): how
    /// late the operation, and the others with their tails, end if it goes first at its head.
    #[inline(always)]
    pub fn own_spans(&self, lanes: &L, from: usize, to: usize, owns: &mut [L::Number])
        requires blocks { AreBlocks (rows_of self.now (L.heads lanes.now) (L.ends lanes.now)) from to }
        requires times { length self.now.times ≡ length (L.heads lanes.now) }
        requires tails { length self.now.tails ≡ length self.now.times }
        requires room { 8 * to - 8 * from ≤ length owns.old }
        requires fits { FitOwnSpans L.GREATEST (lanes_between
            (rows_of self.now (L.heads lanes.now) (L.ends lanes.now)) from to) }
        ensures long { length owns.new ≡ length owns.old }
        ensures owns { AreOwnSpans (L.heads lanes.now) self.now.times self.now.tails from to (map L.value owns.new) }
    {
        let owns = &mut owns[..8 * (to - from)];
        let (times, tails) = (self.rows.times.as_slice(), self.rows.tails.as_slice());
        lanes.own_spans(times, tails, from, to, owns);
    }
}
