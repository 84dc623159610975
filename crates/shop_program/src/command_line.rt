// Makes the command line by clap's builder.
ghost use Rattle.std.specs.Prelude.{IfOk};
ghost use Rattle.clap.specs.{Words.new_app, declared.builder.value_parser.ValueParser.TheVariants.Names};
ghost use Rattle.shop_program.specs.CommandLine.{option_rule, choice_rule, format_rule, number_rule, flag_rule};
ghost use Rattle.shop_program.specs.CommandLine.{path_rule, IsCommandOf, IsCommandLine, list_command, check_command};
ghost use Rattle.shop_program.specs.{CommandLine.solve_command, inner.Arguments.IsArgOf};

use crate::help::{CHECK, Help, LIST, PROGRAM, SOLVE, help_of};
use clap::builder::ValueParser;
use clap::{Arg, ArgAction, Command};
use shop_runs::{MAX_BUDGET, MAX_PIECE, MAX_ROUNDS, MAX_WORKERS, ORDER_WORDS};
use shop_text::FORMAT_WORDS;
use std::alloc::{AllocError as NoMemory, Global};

/// Makes a command without arguments, with its name and its help.
fn described<'a>(alloc: Global, name: &'a str, help: &Help) -> Command<'a>
    ensures { IsCommandOf (new_app name.entry.now) result }
{
    Command::new(alloc, name)
        .about(help.about)
        .after_help(help.end)
}

/// Makes an option that takes a value.
fn option<'a>(alloc: Global, id: &'a str, value: &'a str) -> Arg<'a>
    ensures { IsArgOf (option_rule id.entry.now) result }
{
    let help = help_of(id);
    Arg::new(alloc, id).long(id).value_name(value).help(help)
}

/// Makes an option that takes a number from `least` to `most`.
fn number<'a>(alloc: Global, id: &'a str, least: u64, most: u64, default: &'a str) -> Arg<'a>
    ensures { IsArgOf (number_rule id.entry.now least most default.entry.now) result }
{
    option(alloc, id, "N")
        .value_parser(ValueParser::unsigned(least, most))
        .default_value(default)
}

/// Makes an option that takes one of `words`.
fn choice<'a>(
    alloc: Global,
    id: &'a str,
    value: &'a str,
    words: &'a [&'a str],
    default: &'a str,
) -> Arg<'a>
    ensures { IsArgOf (choice_rule id.entry.now (Names words.entry) default.entry.now) result }
{
    option(alloc, id, value)
        .value_parser(words)
        .default_value(default)
}

/// Makes an option without a value.
fn flag<'a>(alloc: Global, id: &'a str) -> Arg<'a>
    ensures { IsArgOf (flag_rule id.entry.now) result }
{
    Arg::new(alloc, id)
        .long(id)
        .action(ArgAction::SetTrue)
        .help(help_of(id))
}

/// Makes an argument for a path, which may be left out.
fn path<'a>(alloc: Global, id: &'a str) -> Arg<'a>
    ensures { IsArgOf (path_rule id.entry.now) result }
{
    Arg::new(alloc, id).value_name(id).help(help_of(id))
}

/// Makes `--format`, which takes one of the words `formats`.
fn format<'a>(alloc: Global, formats: &'a [&'a str]) -> Arg<'a>
    ensures { IsArgOf (format_rule (Names formats.entry)) result }
{
    choice(alloc, "format", "F", formats, "orlib")
}

/// Makes the command `list`. Fails with `NoMemory` if memory runs out.
fn list<'a>(alloc: Global, formats: &'a [&'a str]) -> Result<Command<'a>, NoMemory>
    ensures { IfOk result (IsCommandOf (list_command (Names formats.entry))) }
{
    described(alloc, "list", &LIST)
        .arg(format(alloc, formats))?
        .arg(path(alloc, "FILE"))
}

/// Makes the command `check`. Fails with `NoMemory` if memory runs out.
fn check<'a>(alloc: Global, formats: &'a [&'a str]) -> Result<Command<'a>, NoMemory>
    ensures { IfOk result (IsCommandOf (check_command (Names formats.entry))) }
{
    described(alloc, "check", &CHECK)
        .arg(format(alloc, formats))?
        .arg(option(alloc, "name", "N"))?
        .arg(path(alloc, "FILE"))?
        .arg(path(alloc, "SCHEDULE"))
}

/// Makes the command `solve`. Fails with `NoMemory` if memory runs out.
fn solve<'a>(
    alloc: Global,
    formats: &'a [&'a str],
    orders: &'a [&'a str],
) -> Result<Command<'a>, NoMemory>
    ensures { IfOk result (IsCommandOf (solve_command (Names formats.entry) (Names orders.entry))) }
{
    described(alloc, "solve", &SOLVE)
        .arg(format(alloc, formats))?
        .arg(option(alloc, "name", "N"))?
        .arg(number(alloc, "rounds", 0, MAX_ROUNDS, "1000"))?
        .arg(number(alloc, "budget", 1, MAX_BUDGET, "100000"))?
        .arg(number(alloc, "piece", 1, MAX_PIECE as u64, "1"))?
        .arg(choice(alloc, "order", "O", orders, "kept"))?
        .arg(number(alloc, "workers", 1, MAX_WORKERS as u64, "1"))?
        .arg(flag(alloc, "gantt"))?
        .arg(path(alloc, "FILE"))
}

/// Makes the whole command line. Fails with `NoMemory` if memory runs out.
pub fn command<'a>(alloc: Global) -> Result<Command<'a>, NoMemory>
    ensures { IfOk result IsCommandLine }
{
    let formats = FORMAT_WORDS.as_slice();
    described(alloc, "jobshop", &PROGRAM)
        .subcommand_required(true)
        .subcommand(list(alloc, formats)?)?
        .subcommand(check(alloc, formats)?)?
        .subcommand(solve(alloc, formats, ORDER_WORDS.as_slice())?)
}
