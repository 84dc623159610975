// The functions that C calls. Each makes one of the engine's calls over bytes, with one worker, and writes the answer
// into the caller's room. Formats are 0 for `orlib`, 1 for `taillard` and 2 for `routes`; without a name a call takes
// the first instance. A call that doesn't end with `DONE` leaves the room as it was. The status of the result says why.
ghost use Rattle.shop_exports.specs.{Exports.{ListsFor, ChecksFor, SolvesFor}, Requests.bytes_given};

use crate::outcomes::{CallResult, faulty, give, refused};
use crate::requests::{Options, check_args, format_of, solve_args};
use shop_engine::{ListArgs, check_bytes, list_bytes, solve_bytes};
use shop_round::Alone;
use std::alloc::Global;

/// Lists the instances of a text, as `list` does.
#[unsafe(no_mangle)]
pub extern "C" fn shop_exports_list(
    alloc: Global,
    format: u32,
    text: &[u8],
    room: &mut [u8],
) -> CallResult
    ensures { ListsFor format text.now room.old room.new result }
{
    let Some(format) = format_of(format) else {
        return faulty();
    };
    match list_bytes(alloc, text, &ListArgs { format }) {
        Ok(list) => give(room, list.as_slice(), false),
        Err(fault) => refused(fault),
    }
}

/// Judges a schedule, as `check` does; unless `is_apart`, `text` also has the schedule.
#[unsafe(no_mangle)]
pub extern "C" fn shop_exports_check(
    alloc: Global,
    format: u32,
    is_named: bool,
    name: &[u8],
    text: &[u8],
    is_apart: bool,
    schedule: &[u8],
    room: &mut [u8],
) -> CallResult
    ensures { ChecksFor format is_named name.now text.now (bytes_given is_apart schedule.now) room.old room.new result }
{
    let args = match check_args(alloc, format, is_named, name) {
        Ok(args) => args,
        Err(outcome) => return outcome,
    };
    match check_bytes(alloc, text, is_apart.then_some(schedule), &args) {
        Ok((feasible, line)) => give(room, line.as_slice(), feasible),
        Err(fault) => refused(fault),
    }
}

/// Reports the best schedule that a plan finds, as `solve` does with one worker.
#[unsafe(no_mangle)]
pub extern "C" fn shop_exports_solve(
    alloc: Global,
    format: u32,
    is_named: bool,
    name: &[u8],
    options: &Options,
    text: &[u8],
    room: &mut [u8],
) -> CallResult
    ensures { SolvesFor format is_named name.now options.now text.now room.old room.new result }
{
    let args = match solve_args(alloc, format, is_named, name, options) {
        Ok(args) => args,
        Err(outcome) => return outcome,
    };
    match solve_bytes(&(), alloc, text, &args, &mut Alone) {
        Ok(report) => give(room, report.as_slice(), false),
        Err(fault) => refused(fault),
    }
}
