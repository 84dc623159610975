// The raise on a machine: of the heads noted there, the least old one and the greatest new one, in lanes.
ghost use Rattle.std.specs.Prelude.{◌≡◌, ◌≤◌, ◌<◌, min, max, length, slice_set};
ghost use Rattle.shop_states.specs.inner.LaneRaises.{nothing_raised, raise_in, raise_of, raises_in, widened};
ghost use Rattle.shop_states.specs.inner.MachineRaises.{AreListed};

use crate::machine_sets::MachineSet;
use shop_lanes::StateLanes;
use std::mem;

/// The raise on a machine. Of the heads noted there, `from` is the least value before they rose and `to` the greatest
/// after. If none was noted, `from` is the greatest number of a lane and `to` is 0.
#[derive(Clone, Copy)]
pub(crate) struct LaneRaise<N> {
    pub from: N,
    pub to: N,
}

/// Returns the raise of a machine on which no head was noted.
#[inline(always)]
pub(crate) fn no_raise<L: StateLanes>() -> LaneRaise<L::Number>
    ensures { raise_in L.value result ≡ nothing_raised L.GREATEST }
{
    LaneRaise {
        from: L::narrowed(L::GREATEST),
        to: L::narrowed(0),
    }
}

/// Returns the lesser of `number` and `other`, in the width of the lanes.
#[inline(always)]
fn lesser<L: StateLanes>(number: L::Number, other: u64) -> L::Number
    requires { other ≤ L.GREATEST }
    ensures { L.value result ≡ min (L.value number) other }
{
    if other < L::widened(number) {
        return L::narrowed(other);
    }
    number
}

/// Returns the greater of `number` and `other`, in the width of the lanes.
#[inline(always)]
fn greater<L: StateLanes>(number: L::Number, other: u64) -> L::Number
    requires { other ≤ L.GREATEST }
    ensures { L.value result ≡ max (L.value number) other }
{
    if L::widened(number) < other {
        return L::narrowed(other);
    }
    number
}

/// Notes that a head rose from `before` to `after`: widens the raise of `machine`, and puts `machine` into `raised`.
/// `NUMBERS` says how many numbers of that set are needed: 1 for at most 64 machines, which spares a test, else 2.
/// Notes nothing if it is 0.
#[inline(always)]
pub(crate) fn see<L: StateLanes, const NUMBERS: usize>(
    raises: &mut [LaneRaise<L::Number>],
    raised: &mut MachineSet,
    machine: u32,
    before: u64,
    after: u64,
)
    requires listed { 0 < NUMBERS → AreListed (raises_in L.value raises.old) raised.old }
    requires machines_fit { NUMBERS ≡ 1 → length raises.old ≤ 64 }
    requires known { 0 < NUMBERS → machine < length raises.old }
    requires rises { before ≤ after }
    requires fits { after ≤ L.GREATEST }
    ensures raises { 0 < NUMBERS → raises_in L.value raises.new ≡ slice_set (raises_in L.value raises.old) machine
        (widened (raise_of (raises_in L.value raises.old) machine) before after) }
    ensures listed { 0 < NUMBERS → AreListed (raises_in L.value raises.new) raised.new }
{
    if NUMBERS == 0 {
        return;
    }
    let raise = raises[machine as usize];
    raised.put(machine, NUMBERS == 1);
    raises[machine as usize] = LaneRaise {
        from: lesser::<L>(raise.from, before),
        to: greater::<L>(raise.to, after),
    };
}

/// Takes the raise of `machine` out of `raises`, and leaves an empty raise.
#[inline(always)]
pub(crate) fn take_raise<L: StateLanes>(
    raises: &mut [LaneRaise<L::Number>],
    machine: usize,
) -> LaneRaise<L::Number>
    requires { machine < length raises.old }
    ensures raise { raise_in L.value result ≡ raise_of (raises_in L.value raises.old) machine }
    ensures empty { raises_in L.value raises.new
        ≡ slice_set (raises_in L.value raises.old) machine (nothing_raised L.GREATEST) }
{
    mem::replace(&mut raises[machine], no_raise::<L>())
}
