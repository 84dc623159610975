// Turns the numbers and bytes of a caller into arguments of the engine.
ghost use Rattle.std.specs.Prelude.{◌≡◌, IfOk, IfErr, MatchOption};
ghost use Rattle.shop_engine.specs.Asking.{name_in};
ghost use Rattle.shop_exports.specs.Requests.{format_code, IsNoFormat, IsNoName, bytes_given, IsUnasked, AsksCheck};
ghost use Rattle.shop_exports.specs.Requests.{IsFaultyCheck, AsksSolve, IsFaultySolve, IsPlanOf, IsFaultyPlan};

use crate::outcomes::{CallResult, faulty, refused};
use shop_engine::{CheckArgs, SolveArgs};
use shop_runs::{ORDERS, Plan};
use shop_text::{FORMATS, Format, ReadFault};
use std::alloc::Global;
use std::str::from_utf8;

/// The plan of a search, and whether the Gantt text is wanted. The order is 0 to keep the open nodes as they are, and 1
/// to take those of least bound first.
#[repr(C)]
#[derive(Clone, Copy)]
pub struct Options {
    pub rounds: u64,
    pub budget: u64,
    pub piece: usize,
    pub order: u32,
    pub gantt: bool,
}

/// Returns the format of the number `code`, its index in `FORMATS`; `None` if there is none.
pub(crate) fn format_of(code: u32) -> Option<Format>
    ensures { MatchOption result (IsNoFormat code) (λ format. format_code format ≡ code) }
{
    FORMATS.get(code as usize).copied()
}

/// Makes the plan of `options`, whose order is an index in `ORDERS`; `None` outside the limits.
fn plan_of(options: &Options) -> Option<Plan>
    ensures { MatchOption result (IsFaultyPlan options.now) (IsPlanOf options.now) }
{
    let order = ORDERS.get(options.order as usize).copied()?;
    Plan::ordered(options.rounds, options.budget, options.piece, order)
}

/// Reads the name, if one is given. Fails if it isn't UTF-8, or if memory runs out.
fn name_of(alloc: Global, is_named: bool, name: &[u8]) -> Result<Option<String>, CallResult>
    ensures named { IfOk result (λ own. name_in own ≡ bytes_given is_named name.now) }
    ensures unnamed { IfErr result (IsUnasked (IsNoName is_named name.now)) }
{
    if !is_named {
        return Ok(None);
    }
    let text = from_utf8(name).map_err(|_| faulty())?;
    let own = text
        .to_string(alloc)
        .map_err(|_| refused(ReadFault::NoMemory))?;
    Ok(Some(own))
}

/// Makes the arguments of a check. Fails if a number or the name is faulty, or if memory runs out.
pub(crate) fn check_args(
    alloc: Global,
    format: u32,
    is_named: bool,
    name: &[u8],
) -> Result<CheckArgs, CallResult>
    ensures asked { IfOk result (AsksCheck format is_named name.now) }
    ensures unasked { IfErr result (IsUnasked (IsFaultyCheck format is_named name.now)) }
{
    let format = format_of(format).ok_or(faulty())?;
    let name = name_of(alloc, is_named, name)?;
    Ok(CheckArgs { format, name })
}

/// Makes the arguments of a search. Fails if a number, an option or the name is faulty, or if memory runs out.
pub(crate) fn solve_args(
    alloc: Global,
    format: u32,
    is_named: bool,
    name: &[u8],
    options: &Options,
) -> Result<SolveArgs, CallResult>
    ensures asked { IfOk result (AsksSolve format is_named name.now options.now) }
    ensures unasked { IfErr result (IsUnasked (IsFaultySolve format is_named name.now options.now)) }
{
    let plan = plan_of(options).ok_or(faulty())?;
    let args = check_args(alloc, format, is_named, name)?;
    Ok(SolveArgs {
        format: args.format,
        name: args.name,
        plan,
        gantt: options.gantt,
    })
}
