// Workers that share the pieces of a round: they claim pieces on a board, or take piece numbers from a locked pool.
#![tactic(auto)]

mod boards;
mod gates;
mod lock_search;
mod ordering;
mod round_hits;
mod rules;
mod seat_laws;
mod seat_lending;
mod views;
mod working;

pub use boards::{Board, Seat};
pub use gates::{Gate, OpenGate, SeatGate};
pub use lock_search::{Pool, search_pool};
pub use ordering::{complete, put_all};
pub use seat_laws::has_all;
pub use seat_lending::{Lent, Returned, put_returned, seats_for_workers};
pub use working::claim_and_search_all;
