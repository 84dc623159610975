// The verdict on a schedule.
ghost use Rattle.std.specs.{Prelude.{◌≤◌, length, IfOk, IfErr}, Option.{option_map, option_copied}};
ghost use Rattle.shop_text.specs.{declared.limits.TheConstants.MAX_TEXT, Schedules.IsTableFault, Texts.OrNoMemory};
ghost use Rattle.shop_engine.specs.{Asking.name_in, Checking.{IsSecondUnread, IsChecking}};
ghost use Rattle.shop_engine.specs.Checking.{schedule_in, IsVerdictOn, IsCheckOf, IsCheckFault, IsScheduleRead};

use crate::args::{CheckArgs, ask};
use crate::devices::{Sink, Source, read_all, write_all};
use crate::faults::Fault;
use shop_model::{Instance, Verdict, check_quickly};
use shop_text::{ReadFault, read, read_table, verdict_line};
use std::alloc::Global;

/// Judges the table of a schedule text: returns whether it is feasible, and the line of the verdict. Fails with
/// the fault of the schedule text, or with `NoMemory` if memory runs out.
fn judge(alloc: Global, instance: &Instance, schedule: &[u8]) -> Result<(bool, Vec<u8>), ReadFault>
    ensures judges { IfOk result (λ r. IsVerdictOn instance.now schedule.now r.0 r.1.items) }
    ensures refused { IfErr result (OrNoMemory (IsTableFault instance.now) schedule.now) }
{
    let table = read_table(alloc, instance, schedule)?;
    let verdict = check_quickly(alloc, instance, &table)?;
    let line = verdict_line(alloc, &verdict)?;
    match verdict {
        Verdict::Feasible { makespan: _ } => Ok((true, line)),
        _ => Ok((false, line)),
    }
}

/// Judges a schedule for the instance of `text` that the arguments name: returns whether it is feasible, and the line
/// of the verdict. Without `schedule`, the schedule is in the instance text itself. Reads and writes no device. For
/// library callers: the program doesn't use `check_bytes`.
///
/// Fails with the fault of the instance text, with `NoSuchName`, or with the fault of the schedule text. Fails with
/// `NoMemory` if memory runs out.
pub fn check_bytes(
    alloc: Global,
    text: &[u8],
    schedule: Option<&[u8]>,
    args: &CheckArgs,
) -> Result<(bool, Vec<u8>), ReadFault>
    ensures check { IfOk result (λ r. IsCheckOf args.now.format (name_in args.now.name) text.now
        (schedule_in text.now (option_copied schedule.entry)) r.0 r.1.items) }
    ensures refused { IfErr result (λ fault. OrNoMemory
        (λ bytes. IsCheckFault args.now.format (name_in args.now.name) bytes
        (schedule_in bytes (option_copied schedule.entry))) text.now fault) }
{
    let named = read(alloc, args.format, text)?;
    let asked = ask(named.as_slice(), &args.name)?;
    judge(alloc, &asked.instance, schedule.unwrap_or(text))
}

/// Returns the schedule text: all of the second source, or the instance text if there is none. Fails if the source
/// does, with `TooLong` above `MAX_TEXT` bytes, or with `NoMemory` if memory runs out.
fn schedule_of<T: Source>(
    alloc: Global,
    text: Vec<u8>,
    second: &mut Option<T>,
) -> Result<Vec<u8>, Fault>
    requires { length text.items ≤ MAX_TEXT }
    ensures short { IfOk result (λ r. length r.items ≤ MAX_TEXT) }
    ensures read { IfOk result (λ r. IsScheduleRead text.items
        (option_map T.device second.old) (option_map T.device second.new) r.items) }
    ensures unread { IfErr result (λ e. IsSecondUnread
        (option_map T.device second.old) (option_map T.device second.new) e) }
{
    match second {
        Some(source) => read_all(alloc, source),
        None => Ok(text),
    }
}

/// Writes the verdict on a schedule for an instance of `source`, and returns whether the schedule is feasible. Reads
/// the schedule from the second source, `schedule`, once the instance is picked; without a second source, from the
/// instance text itself. Writes nothing before the line is made.
///
/// Fails as `check_bytes` does, and with `ReadFailed` or `WriteFailed` if a device fails.
pub fn check_text<S: Source, T: Source, K: Sink>(
    alloc: Global,
    source: &mut S,
    schedule: &mut Option<T>,
    sink: &mut K,
    args: &CheckArgs,
) -> Result<bool, Fault>
    ensures { IsChecking args.now (S.device source.old) (S.device source.new)
        (option_map T.device schedule.old) (option_map T.device schedule.new)
        (K.device sink.old) (K.device sink.new) result }
{
    let text = read_all(alloc, source)?;
    let named = read(alloc, args.format, text.as_slice())?;
    let asked = ask(named.as_slice(), &args.name)?;
    let schedule = schedule_of(alloc, text, schedule)?;
    let (is_feasible, line) = judge(alloc, &asked.instance, schedule.as_slice())?;
    write_all(sink, line.as_slice())?;
    Ok(is_feasible)
}
