// Engines: from the bytes of a text, or of a source, to a list, a verdict or a report; and the laws of what they say.
//
// A program in this language embeds this crate. `solve_bytes` and `check_bytes` touch no device, and the whole theorem
// is their contract:
//
//     let plan = Plan::new(20, 1000, 1).ok_or("a plan within the limits")?;
//     let args = SolveArgs { format: Format::Orlib, name: None, plan, gantt: false };
//     let report = solve_bytes(&(), alloc, text, &args, &mut Alone)?;
//     let asked = CheckArgs { format: Format::Orlib, name: None };
//     let (is_feasible, line) = check_bytes(alloc, text, Some(report.as_slice()), &asked)?;
//
// `Alone`, the crew of one worker, is of `shop_round`. A report of at most 16,777,216 bytes is proved feasible by
// `check_bytes`. `list_text`, `check_text` and `solve_text` go from a `Source` to a `Sink`: `Reading` and `Writing`
// make these of any reader and writer, and `Memory` is a sink that takes no memory while it is written.
#![tactic(auto)]

mod args;
mod checking;
mod devices;
mod faults;
mod laws;
mod listing;
mod memory;
mod solving;

pub use args::{CheckArgs, ListArgs, SolveArgs, ask};
pub use checking::{check_bytes, check_text};
pub use devices::{DeviceFailed, Reading, Sink, Source, Writing, read_all, write_all};
pub use faults::Fault;
pub use laws::{
    bounds_reach_the_floor, each_instance_has_one_least, easier_instances_end_no_later,
    limits_are_fixed, met_bounds_are_least, more_rounds_lower_no_bound, one_report, one_whole_run,
    optimal_where_bound_is_makespan, refused_texts_are_answered, relaxations_ask_no_more,
    renaming_asks_the_same, reports_tell_the_answer, reversing_asks_the_same,
    scaling_keeps_the_least, texts_keep_the_limits,
};
pub use listing::{list_bytes, list_text};
pub use memory::Memory;
pub use shop_runs::{Order, Plan};
pub use shop_text::Format;
pub use solving::{solve_bytes, solve_instance, solve_text};
pub use std::alloc::AllocError as NoMemory;
