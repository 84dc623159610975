// Heads and tails of the operations that a word has not dispatched, the one-machine bound, the lower bound of a word
// with its laws, and `Desk`, which dispatches and undoes operations.
#![tactic(auto)]

mod desks;
mod heads_and_tails;
mod laws;
mod lower;
mod machine_lists;
mod queues;
mod schedules;
mod triples;

pub use desks::Desk;
pub use heads_and_tails::{Heads, tails, total_time};
pub use laws::{
    bounds_are_lower, bounds_never_fall, full_words_end_at_their_bound, numbers_dont_matter,
    sums_stay_small, what_waits_is_left,
};
pub use lower::{lower_bound, machine_bounds};
pub use schedules::Jackson;
pub use std::alloc::AllocError as NoMemory;
pub use triples::{Triple, one_machine};
