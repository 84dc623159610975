// Instances of the job shop, tables of starts and their checker, and words with the tables that they place.
#![tactic(auto)]

mod checking;
mod instances;
mod intervals;
mod laws;
mod limits;
mod ops;
mod overlaps;
mod placements;
mod placing;
mod shared_words;
mod sorted_overlaps;
mod steps;
mod tables;
mod word_jobs;
mod words;

pub use checking::{Verdict, check, check_quickly, makespan};
pub use instances::{Instance, JobsFault, SizeFault};
pub use laws::operations_begin_as_soon_as_they_can;
pub use limits::{MAX_JOBS, MAX_MACHINES, MAX_START, MAX_STEPS, MAX_TIME};
pub use ops::{Job, Op, OperationId};
pub use placements::Placement;
pub use placing::place;
pub use shared_words::SharedWord;
pub use std::alloc::AllocError as NoMemory;
pub use tables::Table;
pub use word_jobs::Jobs;
pub use words::{Word, fits, is_full, start_word};
