// Texts: instances, schedules, reports, and what the program prints of them.
#![tactic(auto)]

mod faults;
mod formats;
mod gantts;
mod instance_drafts;
mod instance_readers;
mod laws;
mod limits;
mod lines;
mod names;
mod printing;
mod reports;
mod schedules;

pub use faults::ReadFault;
pub use formats::{FORMAT_WORDS, FORMATS, Format};
pub use gantts::gantt;
pub use instance_readers::{read, read_orlib, read_routes, read_taillard};
pub use laws::{
    columns_show_the_job, faults_are_answered, names_are_visible, one_reading, one_table_reading,
    reports_are_schedules, shapes_of_parts, some_reading, some_table_reading,
    table_faults_are_answered,
};
pub use limits::{MAX_COLUMNS, MAX_TEXT};
pub use names::{Named, pick};
pub use printing::{listing, report, verdict_line};
pub use reports::Report;
pub use schedules::read_table;
pub use std::alloc::AllocError as NoMemory;
