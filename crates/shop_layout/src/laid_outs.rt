// `LaidOut`: an instance with its layout in lanes of one width, made of a `LayoutFor`, which the layout lends.
ghost use Rattle.std.specs.Prelude.{◌≡◌, ◌≤◌, ◌<◌};
ghost use Rattle.shop_model.specs.{Limits.IsWithinLimits, Shop.operation_count};
ghost use Rattle.shop_bound.specs.Renumbered.{IsRenumbered};
ghost use Rattle.shop_layout.specs.{LaidOuts.IsReady};

use crate::fixed_rows::{FixedRows, Rows};
use crate::grid::Grid;
use crate::layouts::Layout;
use shop_lanes::{Lanes16, Lanes32, Lanes64, StateLanes};
use shop_model::Instance;
use std::marker::Model;

/// The layout of an instance, which lanes of the type `L` hold. Contracts see it as they see a `LaidOut`. `LaneLayout`
/// holds this in place of the `LaidOut` itself, with which each function that has a `LaneLayout` is dear to prove.
#[derive(Drop)]
pub struct LayoutFor<'l, 'a, L: StateLanes> {
    layout: &'l Layout<'a>,
    rows: &'l Rows<L::Number>,
}

impl<'l, 'a, L: StateLanes> Model for LayoutFor<'l, 'a, L> {
    ghost use Rattle.std.specs.Prelude.{◌≡◌, ◌≤◌, ◌<◌, map};
    ghost use Rattle.shop_layout.specs.{LaidOuts.LaidOutState, inner.Widths.FitsIn};

    ghost Value = { LaidOutState };

    ghost view = { λ l. l.layout.now };

    ghost invariant = { λ l. FitsIn L.GREATEST L.EACH l.layout.now.shop l.layout.now.layout
        × (0 < L.EACH → l.layout.now.shop.machines ≤ 64)
        × (map L.value l.rows.now.times.items ≡ l.layout.now.layout.times)
        × (map L.value l.rows.now.tails.items ≡ l.layout.now.layout.tails) };
}

impl<'l, 'a, L: StateLanes> LayoutFor<'l, 'a, L> {
    /// The instance with its layout in these lanes.
    pub fn laid_out(self) -> LaidOut<'l, 'a, L>
        ensures { result ≡ self.entry }
    {
        let layout = self.layout;
        LaidOut {
            instance: layout.instance,
            ranks: layout.ranks.as_slice(),
            grid: Grid::of(layout, self.rows),
        }
    }
}

/// An instance with its layout in lanes of one width. The layout calls each machine by its rank. Contracts see the
/// instance both as it was given and with its machines called so. Contracts of a `Grid` see no instance, so a dispatch
/// needs no proofs about one.
pub struct LaidOut<'l, 'a, L: StateLanes> {
    instance: &'a Instance,
    /// the number of each machine in the layout, which only contracts read
    ranks: &'l [usize],
    grid: Grid<'l, L>,
}

// Not derived: a derived `Drop` would be compiled anew into each function that has a walk.
impl<L: StateLanes> Drop for LaidOut<'_, '_, L> {
    fn drop(self) {
        let LaidOut {
            instance: _,
            ranks: _,
            grid: _,
        } = self;
    }
}

impl<'l, 'a, L: StateLanes> Model for LaidOut<'l, 'a, L> {
    ghost use Rattle.std.specs.Prelude.{◌≤◌, ◌<◌};
    ghost use Rattle.shop_model.specs.Limits.{IsWithinLimits};
    ghost use Rattle.shop_layout.specs.{LaidOuts.{IsReady, LaidOutState}, Ranks.{AreRanks, ranked}};

    ghost Value = { LaidOutState };

    ghost view = { λ l. record {
      shop = ranked l.ranks.now l.instance.now;
      asked = l.instance.now;
      layout = l.grid;
    } };

    ghost invariant = { λ l. IsReady L.GREATEST (ranked l.ranks.now l.instance.now) l.grid
        × (0 < L.EACH → l.instance.now.machines ≤ 64)
        × IsWithinLimits l.instance.now
        × AreRanks l.instance.now.machines l.ranks.now };
}

impl<'l, 'a, L: StateLanes> LaidOut<'l, 'a, L> {
    /// The instance as it was given: its machines may have other numbers in the layout.
    #[inline(always)]
    #[tactic(auto, using(crate::proofs::RankedShops::is_renumbered))]
    pub fn instance(&self) -> &'a Instance
        ensures instance { result.now ≡ self.now.asked }
        ensures renumbered { IsRenumbered self.now.asked self.now.shop }
        ensures limits { IsWithinLimits self.now.asked }
        ensures machines { self.now.shop.machines ≡ self.now.asked.machines }
        ensures operations { operation_count self.now.shop ≡ operation_count self.now.asked }
    {
        self.instance
    }

    /// The layout in lanes, which are wide enough for each head and each end that dispatches can reach. Lanes for a
    /// fixed number of blocks a machine have at most 64 machines.
    #[inline(always)]
    #[tactic(auto, using(crate::proofs::RankedShops::is_renumbered))]
    pub fn grid(&self) -> &Grid<'l, L>
        ensures grid { result.now ≡ self.now.layout }
        ensures ready { IsReady L.GREATEST self.now.shop self.now.layout }
        ensures few { 0 < L.EACH → self.now.shop.machines ≤ 64 }
        ensures renumbered { IsRenumbered self.now.asked self.now.shop }
        ensures limits { IsWithinLimits self.now.asked }
    {
        &self.grid
    }
}

/// The most machines for which lanes have code of their own for a number of blocks.
const MOST_MACHINES: usize = 64;

/// An instance laid out in lanes of 16, 32 or 64 bits. Those of 16 bits have code of their own if each of at most 64
/// machines has two blocks (`In16By2`), three or four, as most instances of 9 to 32 jobs have: there no loop goes over
/// blocks, nothing looks up their number, and a set of machines is one number of 64 bits.
#[derive(Drop)]
pub enum LaneLayout<'l, 'a> {
    In16By2(LayoutFor<'l, 'a, Lanes16<2>>),
    In16By3(LayoutFor<'l, 'a, Lanes16<3>>),
    In16By4(LayoutFor<'l, 'a, Lanes16<4>>),
    In16(LayoutFor<'l, 'a, Lanes16<0>>),
    In32(LayoutFor<'l, 'a, Lanes32>),
    In64(LayoutFor<'l, 'a, Lanes64>),
}

impl<'a> Layout<'a> {
    ghost use Rattle.shop_layout.specs.Layouts.{shop_laid_out};

    /// The layout in lanes of the width that its maker chose.
    pub fn lanes(&self) -> LaneLayout<'_, 'a>
        ensures { shop_laid_out result ≡ self.now.asked }
    {
        let layout = self;
        match &layout.fixed {
            FixedRows::In16(rows) if layout.instance.machines() > MOST_MACHINES => {
                LaneLayout::In16(LayoutFor { layout, rows })
            }
            FixedRows::In16(rows) => match layout.blocks_each {
                2 => LaneLayout::In16By2(LayoutFor { layout, rows }),
                3 => LaneLayout::In16By3(LayoutFor { layout, rows }),
                4 => LaneLayout::In16By4(LayoutFor { layout, rows }),
                _ => LaneLayout::In16(LayoutFor { layout, rows }),
            },
            FixedRows::In32(rows) => LaneLayout::In32(LayoutFor { layout, rows }),
            FixedRows::In64(rows) => LaneLayout::In64(LayoutFor { layout, rows }),
        }
    }
}
