// Runs the program on its words, its streams and the files that are named.
ghost use Rattle.std.specs.Prelude.{◌≡◌, map, string_bytes, IfErr};
ghost use Rattle.shop_program.specs.{Running.{IsCommandRun, IsNoWords, IsEnd, IsStart}, inner.Runs.{file_in, RunsFrom}};

use crate::arguments::Args;
use crate::files::{Files, open_given};
use crate::reading_args::args_of;
use crate::statuses::{DONE, INFEASIBLE, say_fault, say_line_fault, say_no_memory, say_no_text};
use shop_engine::{Fault, Sink, Source, check_text, list_text, solve_text};
use shop_runs::MakesCrew;
use std::env::args;
use std::io::ErrorKind;
use std::rt::Env;

/// Runs a command on `source`, whatever its file, and returns the exit status. The report of `solve` doesn't depend on
/// the crew. Fails with the fault of a text, with `ReadFailed` or `WriteFailed` if a device fails, or with `NoMemory`
/// if memory runs out.
fn run_from<R: Files + AllocGlobal, C: MakesCrew<R>, S: Source, K: Sink>(
    rt: &R,
    crews: &C,
    args: &Args,
    source: &mut S,
    out: &mut K,
) -> Result<u8, Fault>
    requires { C.Crew.ready }
    ensures { RunsFrom (R.opens rt.now) args.now (K.device out.old) (K.device out.new) result
        (S.device source.old) (S.device source.new) }
{
    match args {
        Args::List { args, .. } => {
            list_text(rt.alloc(), source, out, args)?;
            Ok(DONE)
        }
        Args::Check { args, schedule, .. } => {
            let mut second = open_given(rt, schedule)?;
            let feasible = check_text(rt.alloc(), source, &mut second, out, args)?;
            if feasible { Ok(DONE) } else { Ok(INFEASIBLE) }
        }
        Args::Solve { args, workers, .. } => {
            let mut crew = crews.of(*workers);
            solve_text(rt, rt.alloc(), source, out, args, &mut crew)?;
            Ok(DONE)
        }
    }
}

/// Returns the path of the text that a command is run on.
fn file_of(args: &Args) -> &Option<String>
    ensures { result.now ≡ file_in args.now }
{
    match args {
        Args::List { file, .. } | Args::Check { file, .. } | Args::Solve { file, .. } => file,
    }
}

/// Runs what a command line asks for on the files that it names, or on `source`, and writes to `out`; `crews` makes the
/// crew that searches. Returns the exit status: 1 if `check` finds the schedule infeasible, else 0. Fails with the
/// fault of a text, with `ReadFailed` or `WriteFailed` if a device fails, or with `NoMemory` if memory runs out.
pub fn run_args<R: Files + AllocGlobal, C: MakesCrew<R>, S: Source, K: Sink>(
    rt: &R,
    crews: &C,
    args: &Args,
    source: &mut S,
    out: &mut K,
) -> Result<u8, Fault>
    requires { C.Crew.ready }
    ensures { IsCommandRun (R.opens rt.now) args.now (record { source = S.device source.old; sink = K.device out.old })
        (record { source = S.device source.new; sink = K.device out.new }) result }
{
    match open_given(rt, file_of(args))? {
        Some(mut first) => run_from(rt, crews, args, &mut first, out),
        None => run_from(rt, crews, args, source, out),
    }
}

/// Returns the words of the process, the program's name first. Without them says why on `err`, and fails with the exit
/// status: 2 (a word isn't UTF-8) or 5 (memory ran out).
fn words_of<R: Env + AllocGlobal, E: Sink>(rt: &R, err: &mut E) -> Result<Vec<String>, u8>
    ensures { IfErr result IsNoWords }
{
    let words = match args(rt) {
        Ok(words) => words,
        Err(fault) if fault.kind() == ErrorKind::OutOfMemory => return Err(say_no_memory(err)),
        Err(_) => return Err(say_no_text(err)),
    };
    words
        .collect::<Vec<String>>(rt.alloc())
        .map_err(|_| say_no_memory(err))
}

/// Runs the program on the words of a command line, the program's name first. Reads files or `source`, writes to `out`,
/// and says faults on `err`; `crews` makes the crew of as many workers as the words ask for. Returns the exit status: 0
/// done, 1 infeasible, 2 a faulty command line, 3 a text refused, 4 a read or write that failed, 5 no memory.
pub fn program<R: Files + AllocGlobal, C: MakesCrew<R>, S: Source, K: Sink, E: Sink>(
    rt: &R,
    crews: &C,
    words: &[String],
    source: &mut S,
    out: &mut K,
    err: &mut E,
) -> u8
    requires { C.Crew.ready }
    ensures { IsEnd (R.opens rt.now) (map string_bytes words.now)
        (record { source = S.device source.old; sink = K.device out.old })
        (record { source = S.device source.new; sink = K.device out.new }) result }
{
    let args = match args_of(rt.alloc(), words) {
        Ok(args) => args,
        Err(fault) => return say_line_fault(err, fault),
    };
    match run_args(rt, crews, &args, source, out) {
        Ok(status) => status,
        Err(fault) => say_fault(err, fault),
    }
}

/// Runs the program on the words of the process, and returns the exit status. A word that isn't UTF-8 is a fault of the
/// command line.
pub fn start<R: Env + Files + AllocGlobal, C: MakesCrew<R>, S: Source, K: Sink, E: Sink>(
    rt: &R,
    crews: &C,
    source: &mut S,
    out: &mut K,
    err: &mut E,
) -> u8
    requires { C.Crew.ready }
    ensures { IsStart (R.opens rt.now)
        (record { source = S.device source.old; sink = K.device out.old })
        (record { source = S.device source.new; sink = K.device out.new }) result }
{
    match words_of(rt, err) {
        Ok(words) => program(rt, crews, words.as_slice(), source, out, err),
        Err(status) => status,
    }
}
