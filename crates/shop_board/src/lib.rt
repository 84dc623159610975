// Crews whose workers share a round: they claim its pieces on an atomic board, or take them from a locked pool.
#![tactic(auto)]

mod board_crews;
mod board_search;
mod completing;
mod lock_crews;
mod on_threads;
mod worker_crews;

pub use board_crews::BoardCrew;
pub use board_search::work;
pub use lock_crews::LockCrew;
pub use shop_workers::{Board, Gate, OpenGate, Pool, Seat, SeatGate};
pub use std::alloc::AllocError as NoMemory;
pub use worker_crews::{ByWorkers, WorkerCrew};
