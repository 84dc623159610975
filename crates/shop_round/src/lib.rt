// The crew that searches on the calling thread alone, and runs by this crew.
#![tactic(auto)]

mod alone;
mod piece_searchers;

pub use alone::{Alone, run_alone};
pub use piece_searchers::PieceSearcher;
pub use shop_runs::{Answer, Crew, Entry, Kind, Order, Plan, Round, Standing, gather, run};
pub use std::alloc::AllocError as NoMemory;
