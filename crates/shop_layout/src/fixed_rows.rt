// The times and tails of a layout, in lanes as narrow as it allows.
ghost use Rattle.std.specs.Prelude.{◌≡◌, ◌<◌, ◌≤◌, ◌^◌, IfOk, map};
ghost use Rattle.shop_model.specs.Shop.{Shop};
ghost use Rattle.shop_layout.specs.{LaidOuts.IsReady, inner.{FixedRows.{greatest_in, HasRowsOf}, Widths.IsReadyAbove}};

use crate::positions::Positions;
use shop_lanes::{Lanes16, Lanes32, Lanes64, StateLanes};
use std::alloc::{AllocError as NoMemory, Global};

/// The time and the tail of the operation at each position, as numbers of one width.
#[derive(Drop)]
pub(crate) struct Rows<N: Copy + Drop> {
    pub(crate) times: Vec<N>,
    pub(crate) tails: Vec<N>,
}

/// Puts the times and tails of `positions` into lanes. Fails with `NoMemory` if memory runs out.
fn put_in_lanes<L: StateLanes>(
    alloc: Global,
    positions: &Positions,
) -> Result<Rows<L::Number>, NoMemory>
    requires { (shop : Shop) × IsReady L.GREATEST shop positions.now }
    ensures times { IfOk result (λ r. map L.value r.times.items ≡ positions.now.times) }
    ensures tails { IfOk result (λ r. map L.value r.tails.items ≡ positions.now.tails) }
{
    Ok(Rows {
        times: L::in_lanes(alloc, positions.times.as_slice())?,
        tails: L::in_lanes(alloc, positions.tails.as_slice())?,
    })
}

/// Times and tails in lanes of 16, 32 or 64 bits.
#[derive(Drop)]
pub(crate) enum FixedRows {
    In16(Rows<u16>),
    In32(Rows<u32>),
    In64(Rows<u64>),
}

impl FixedRows {
    /// Puts the times and tails of `positions` into the narrowest lanes whose greatest number is above `most`. Fails
    /// with `NoMemory` if memory runs out.
    pub(crate) fn of(alloc: Global, positions: &Positions, most: u64) -> Result<FixedRows, NoMemory>
        requires ready { (shop : Shop) × IsReadyAbove most shop positions.now }
        requires small { most < 2 ^ 50 }
        ensures rows { IfOk result (HasRowsOf positions.now) }
        ensures above { IfOk result (λ r. most < greatest_in r) }
        ensures narrow { IfOk result (λ r. 65535 < greatest_in r → 65535 ≤ most) }
        ensures narrower { IfOk result (λ r. 4294967295 < greatest_in r → 4294967295 ≤ most) }
        ensures computable { IfOk result (λ r. greatest_in r < 2 ^ 64) }
    {
        if most < <Lanes16<0> as StateLanes>::GREATEST {
            return Ok(FixedRows::In16(put_in_lanes::<Lanes16<0>>(alloc, positions)?));
        }
        if most < <Lanes32 as StateLanes>::GREATEST {
            return Ok(FixedRows::In32(put_in_lanes::<Lanes32>(alloc, positions)?));
        }
        Ok(FixedRows::In64(put_in_lanes::<Lanes64>(alloc, positions)?))
    }
}
