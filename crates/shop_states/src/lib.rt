// States of partial schedules (words): each is filled from its word, or extended by a dispatch, in place or in a copy.
#![tactic(auto)]

mod advances;
mod beginnings;
mod candidate_lists;
mod dispatchers;
mod dispatches;
mod fills;
mod job_sets;
mod lane_bounds;
mod lane_choices;
mod lane_raises;
mod lane_times;
mod late_raises;
mod machine_raises;
mod machine_sets;
mod placing;
mod raises;
mod siblings;
mod states;

pub use candidate_lists::CandidateList;
pub use dispatchers::Dispatcher;
pub use states::{Candidate, State};
