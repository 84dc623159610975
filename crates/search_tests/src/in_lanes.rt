// Walks and fills over the layout of an instance, in lanes of each width.
ghost use Rattle.std.specs.Prelude.{◌≡◌};

use crate::copies::{Manner, assert_walk};
use crate::fills::assert_fills;
use crate::numbers::Numbers;
use crate::shuffled_layouts::shuffled;
use shop_lanes::StateLanes;
use shop_layout::{LaneLayout, LayoutFor};
use shop_model::Instance;
use shop_states::Dispatcher;
use std::alloc::AllocGlobal;
use std::process::Abort;

/// What is tried with states: a walk, or fills from the beginnings of words.
#[derive(Clone, Copy)]
pub enum Tried {
    Walk(Manner),
    Fills,
}

/// Walks along a random word, or fills states. Called for each width of lanes, so that what a walk or a fill needs of
/// its states is proved once, for any lanes.
fn assert_over<L: StateLanes>(
    rt: &(impl Abort + AllocGlobal),
    numbers: &mut Numbers,
    layout: LayoutFor<'_, '_, L>,
    instance: &Instance,
    tried: Tried,
)
    requires { layout.asked ≡ instance.now }
{
    let alloc = rt.alloc();
    let mut dispatcher = Dispatcher::new(alloc, layout.laid_out()).expect(rt, "memory");
    match tried {
        Tried::Walk(manner) => assert_walk(rt, alloc, numbers, &mut dispatcher, instance, manner),
        Tried::Fills => assert_fills(rt, numbers, &mut dispatcher, instance),
    }
}

/// Does what `assert_over` does, in the lanes of the instance's layout, where its machines stand in a random order.
pub fn assert_in_lanes(
    rt: &(impl Abort + AllocGlobal),
    numbers: &mut Numbers,
    instance: &Instance,
    tried: Tried,
) {
    let layout = shuffled(rt, rt.alloc(), numbers, instance);
    match layout.lanes() {
        LaneLayout::In16By2(layout) => assert_over(rt, numbers, layout, instance, tried),
        LaneLayout::In16By3(layout) => assert_over(rt, numbers, layout, instance, tried),
        LaneLayout::In16By4(layout) => assert_over(rt, numbers, layout, instance, tried),
        LaneLayout::In16(layout) => assert_over(rt, numbers, layout, instance, tried),
        LaneLayout::In32(layout) => assert_over(rt, numbers, layout, instance, tried),
        LaneLayout::In64(layout) => assert_over(rt, numbers, layout, instance, tried),
    }
}
