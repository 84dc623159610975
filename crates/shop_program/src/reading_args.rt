// Reads the arguments of a command line from its words, by the values in clap's matches.
ghost use Rattle.std.specs.Prelude.{◌<◌, ◌^◌, ℕ, IfOk, IfErr, map, option_map, string_bytes, codes};
ghost use Rattle.clap.specs.Words.{found_of, rows_of};
ghost use Rattle.shop_text.specs.Formats.{word_of};
ghost use Rattle.shop_runs.specs.Orders.{order_word};
ghost use Rattle.shop_program.specs.CommandLine.{HasText, HasNumber, MayHave, HasPlan, IsArgs, IsLineOf, IsUnread};
ghost use Rattle.shop_program.specs.{CommandLine.UnlessNoMemory, inner.Arguments.Reads};

use crate::arguments::Args;
use crate::command_line::command;
use crate::line_faults::{LineFault, misread};
use clap::ArgMatches;
use shop_engine::{CheckArgs, ListArgs, SolveArgs};
use shop_runs::{Order, Plan, Workers};
use shop_text::Format;
use std::alloc::{AllocError as NoMemory, Global};

/// Reads the format. Fails if the matches lack it, or with `NoMemory` if memory runs out.
fn format_in(alloc: Global, found: &ArgMatches) -> Result<Format, LineFault>
    ensures { Reads (λ format. HasText (rows_of (found_of found.now)) (codes "format") (word_of format)) result }
{
    let Some(word) = found.get_str("format") else {
        return Err(misread(alloc));
    };
    Format::of_word(word).ok_or_else(|| misread(alloc))
}

/// Reads the order of open nodes. Fails if the matches lack it, or with `NoMemory` if memory runs out.
fn order_in(alloc: Global, found: &ArgMatches) -> Result<Order, LineFault>
    ensures { Reads (λ order. HasText (rows_of (found_of found.now)) (codes "order") (order_word order)) result }
{
    let Some(word) = found.get_str("order") else {
        return Err(misread(alloc));
    };
    Order::of_word(word).ok_or_else(|| misread(alloc))
}

/// Reads the number of the option `id`. Fails if the matches lack it, or with `NoMemory` if memory runs out.
fn number_in(alloc: Global, found: &ArgMatches, id: &str) -> Result<u64, LineFault>
    ensures ok { IfOk result (HasNumber (rows_of (found_of found.now)) id.now) }
    ensures err { IfErr result (UnlessNoMemory ((n : ℕ) → n < 2 ^ 64
        → HasNumber (rows_of (found_of found.now)) id.now n → ⊥)) }
{
    match found.get_one::<u64>(id) {
        Some(number) => Ok(number),
        None => Err(misread(alloc)),
    }
}

/// Reads the text of the argument `id`; `None` if it is left out. Fails with `NoMemory` if memory runs out.
fn text_in(alloc: Global, found: &ArgMatches, id: &str) -> Result<Option<String>, NoMemory>
    ensures { IfOk result (λ text. MayHave (rows_of (found_of found.now)) id.now (option_map string_bytes text)) }
{
    match found.get_str(id) {
        Some(text) => Ok(Some(text.to_string(alloc)?)),
        None => Ok(None),
    }
}

/// Reads the arguments of `list` from clap's matches. Fails if these lack one, or with `NoMemory` if memory runs out.
fn list_args(alloc: Global, found: &ArgMatches) -> Result<Args, LineFault>
    ensures { Reads (IsArgs (codes "list") (rows_of (found_of found.now))) result }
{
    let args = ListArgs {
        format: format_in(alloc, found)?,
    };
    let file = text_in(alloc, found, "FILE")?;
    Ok(Args::List { args, file })
}

/// Reads the arguments of `check` from clap's matches. Fails if these lack one, or with `NoMemory` if memory runs out.
fn check_args(alloc: Global, found: &ArgMatches) -> Result<Args, LineFault>
    ensures { Reads (IsArgs (codes "check") (rows_of (found_of found.now))) result }
{
    let args = CheckArgs {
        format: format_in(alloc, found)?,
        name: text_in(alloc, found, "name")?,
    };
    let file = text_in(alloc, found, "FILE")?;
    let schedule = text_in(alloc, found, "SCHEDULE")?;
    Ok(Args::Check {
        args,
        file,
        schedule,
    })
}

/// Reads the plan of `solve` from clap's matches. Fails if these lack a part, or with `NoMemory` if memory runs out.
fn plan_in(alloc: Global, found: &ArgMatches) -> Result<Plan, LineFault>
    ensures { Reads (HasPlan (rows_of (found_of found.now))) result }
{
    let rounds = number_in(alloc, found, "rounds")?;
    let budget = number_in(alloc, found, "budget")?;
    let piece = number_in(alloc, found, "piece")? as usize;
    let order = order_in(alloc, found)?;
    Plan::ordered(rounds, budget, piece, order).ok_or_else(|| misread(alloc))
}

/// Reads the arguments of `solve` from clap's matches. Fails if these lack one, or with `NoMemory` if memory runs out.
#[tactic(auto, using(crate::proofs::Getters::has_flag))]
fn solve_args(alloc: Global, found: &ArgMatches) -> Result<Args, LineFault>
    ensures { Reads (IsArgs (codes "solve") (rows_of (found_of found.now))) result }
{
    let format = format_in(alloc, found)?;
    let plan = plan_in(alloc, found)?;
    let workers = number_in(alloc, found, "workers")? as usize;
    let gantt = found.get_flag("gantt");
    let name = text_in(alloc, found, "name")?;
    let file = text_in(alloc, found, "FILE")?;
    let Some(workers) = Workers::new(workers) else {
        return Err(misread(alloc));
    };
    let args = SolveArgs {
        format,
        name,
        plan,
        gantt,
    };
    Ok(Args::Solve {
        args,
        workers,
        file,
    })
}

/// Reads what a command line asks for, whose words begin with the program's name: the command, and the values that clap
/// reads of the words, each number within its limits.
///
/// Fails with `Usage` and clap's fault (a call for help is one too), or with `NoMemory` if memory runs out.
pub fn args_of(alloc: Global, words: &[String]) -> Result<Args, LineFault>
    ensures ok { IfOk result (IsLineOf (map string_bytes words.now)) }
    ensures err { IfErr result (UnlessNoMemory (IsUnread (map string_bytes words.now))) }
{
    let matches = command(alloc)?.try_get_matches_from(words)?;
    let Some((name, found)) = matches.subcommand() else {
        return Err(misread(alloc));
    };
    match name {
        "list" => list_args(alloc, found),
        "check" => check_args(alloc, found),
        "solve" => solve_args(alloc, found),
        _ => Err(misread(alloc)),
    }
}
