// The program: its command line, its files, what it says of faults, and its exit statuses.
#![tactic(auto)]

mod arguments;
mod command_line;
mod files;
mod help;
mod line_faults;
mod reading_args;
mod running;
mod statuses;

pub use arguments::Args;
pub use files::{Files, open_given};
pub use line_faults::LineFault;
pub use reading_args::args_of;
pub use running::{program, run_args, start};
pub use statuses::{
    COMMAND_LINE, DONE, FAILED, INFEASIBLE, NO_MEMORY, REFUSED, say_fault, say_line_fault,
    say_no_memory, say_no_text,
};
