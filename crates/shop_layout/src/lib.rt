// The layout of an instance: the position of each operation, and lanes as narrow as the instance allows.
#![tactic(auto)]

mod fixed_rows;
mod grid;
mod laid_outs;
mod layouts;
mod legs;
mod positions;
mod slots;

pub use grid::Grid;
pub use laid_outs::{LaidOut, LaneLayout, LayoutFor};
pub use layouts::Layout;
pub use legs::{Leg, Routes};
pub use slots::Slot;
