// Searches a piece by branch and bound: a depth-first walk over states of words.
#![tactic(auto)]

mod expanding;
mod held;
mod searchers;
mod walk_states;
mod walkers;

pub use searchers::{Searcher, search};
pub use shop_nodes::{Node, Piece, Sheet, children, conflict};
pub use std::alloc::AllocError as NoMemory;
