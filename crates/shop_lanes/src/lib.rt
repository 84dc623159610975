// Rows of heads, times, tails and ends in lanes of 16, 32 or 64 bits, read and added up in blocks of eight.
#![tactic(auto)]

mod block_counts;
mod block_lanes;
mod blocks;
mod blocks_of_widths;
mod folds;
mod lane_rows;
mod leaps;
mod marking;
mod owning;
mod passes;
mod served_blocks;
mod state_lanes;

pub use block_counts::are_wide;
use block_lanes::BlockLanes;
use blocks_of_widths::{Block16, Block32, Block64};
pub use lane_rows::{HeadRange, LaneRows};
pub use marking::Marks;
pub use state_lanes::StateLanes;

/// The heads and ends of a word's state in lanes of 16 bits, where each machine has `EACH` blocks, or any number if
/// `EACH` is 0.
pub type Lanes16<const EACH: usize> = BlockLanes<Block16, EACH>;

/// The heads and ends of a word's state in lanes of 32 bits.
pub type Lanes32 = BlockLanes<Block32, 0>;

/// The heads and ends of a word's state in lanes of 64 bits.
pub type Lanes64 = BlockLanes<Block64, 0>;
