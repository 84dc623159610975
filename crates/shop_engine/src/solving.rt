// The report of the best schedule that a plan finds.
ghost use Rattle.std.specs.Prelude.{◌≡◌, ◌<◌, ◌^◌, IfOk, IfErr};
ghost use Rattle.shop_model.specs.{Shop.IsFeasible, Checking.{HasShape, starts_of}};
ghost use Rattle.shop_text.specs.{Texts.OrNoMemory, Writing.text_with_gantt, Names.shop_of_named};
ghost use Rattle.shop_runs.specs.Runs.{planned, SaysAnswer};
ghost use Rattle.shop_engine.specs.{Asking.{name_in, IsAskFault}, Solving.IsSolving};
ghost use Rattle.shop_engine.specs.Headline.{IsRight, IsDetermined, IsRightOf, IsDeterminedOf, WhereKnown};
ghost use Rattle.shop_engine.specs.{SolvedSchedules.{GivesSchedule, PassesCheck}, inner.Told.{told_by, HasWords}};

use crate::args::{SolveArgs, ask};
use crate::devices::{Sink, Source, read_all, write_all};
use crate::faults::Fault;
use shop_runs::{Answer, Crew, Plan, run};
use shop_text::{Named, ReadFault, Report, gantt, read, report};
use std::alloc::{AllocError as NoMemory, Global};
use std::mem;

/// States for proofs: a `u64` is below 2^64. Does nothing.
fn is_word(number: u64)
    ensures { number < 2 ^ 64 }
{}

/// Makes the report of `answer`, with its Gantt text if `with_gantt`. Fails with `NoMemory` if memory runs out.
fn text_of(
    alloc: Global,
    asked: &Named,
    answer: &Answer,
    with_gantt: bool,
) -> Result<Vec<u8>, NoMemory>
    requires shape { HasShape asked.now.instance answer.now.table }
    requires feasible { IsFeasible asked.now.instance (starts_of answer.now.table) }
    ensures written { IfOk result (λ v.
        v.items ≡ text_with_gantt (told_by (shop_of_named asked.now) answer.now) with_gantt) }
    ensures words { HasWords answer.now }
{
    let told = Report {
        name: asked.name.as_str(),
        instance: &asked.instance,
        table: &answer.table,
        makespan: answer.makespan,
        bound: answer.bound,
        open_nodes: answer.open_nodes,
        rounds: answer.rounds,
        nodes: answer.nodes,
    };
    is_word(told.makespan);
    is_word(told.bound);
    is_word(told.open_nodes as u64);
    is_word(told.rounds);
    is_word(told.nodes);
    let mut text = report(alloc, &told)?;
    if with_gantt {
        let chart = gantt(alloc, &asked.instance, &answer.table)?;
        text.extend_from_slice(chart.as_slice())?;
    }
    Ok(text)
}

/// Searches an instance by `plan` with any crew. Returns the report of the best schedule found, with its Gantt text if
/// `with_gantt`, and the answer of the run. The schedule is feasible and ends at the printed makespan, no feasible
/// schedule ends before the printed bound, and if the status is optimal none ends before the makespan.
///
/// The report is itself a schedule text of the instance, if it has no more than `MAX_TEXT` bytes. Fails with `NoMemory`
/// if memory runs out.
pub fn solve_instance<R, C: Crew<R>>(
    rt: &R,
    alloc: Global,
    asked: &Named,
    plan: &Plan,
    with_gantt: bool,
    crew: &mut C,
) -> Result<(Vec<u8>, Answer), NoMemory>
    requires { C.ready }
    ensures right { IfOk result (λ p. IsRight (shop_of_named asked.now) with_gantt p.0.items) }
    ensures determined { IfOk result (λ p.
        IsDetermined (shop_of_named asked.now) (planned plan.now) with_gantt p.0.items) }
    ensures schedule { IfOk result (λ p. GivesSchedule (shop_of_named asked.now) p.0.items) }
    ensures answer { IfOk result (λ p. SaysAnswer asked.now.instance plan.now p.1) }
{
    let answer = run(rt, alloc, &asked.instance, plan, crew)?;
    answer.table.keeps_limits();
    let text = text_of(alloc, asked, &answer, with_gantt)?;
    Ok((text, answer))
}

/// Searches the instance of `text` that the arguments name, and returns the report that `solve_instance` makes. Reads
/// and writes no device.
///
/// `check_bytes` of the same text finds the report feasible, with the printed makespan, if the report has no more than
/// `MAX_TEXT` bytes. Fails with the fault of the text, or with `NoSuchName`. Fails with `NoMemory` if memory runs out.
pub fn solve_bytes<R, C: Crew<R>>(
    rt: &R,
    alloc: Global,
    text: &[u8],
    args: &SolveArgs,
    crew: &mut C,
) -> Result<Vec<u8>, ReadFault>
    requires { C.ready }
    ensures right { IfOk result (λ out. IsRightOf
        args.now.format (name_in args.now.name) args.now.gantt text.now out.items) }
    ensures determined { IfOk result (λ out. IsDeterminedOf args.now text.now out.items) }
    ensures schedule { IfOk result (λ out. PassesCheck args.now.format (name_in args.now.name) text.now out.items) }
    ensures refused { IfErr result (λ fault. OrNoMemory
        (IsAskFault args.now.format (name_in args.now.name)) text.now fault) }
{
    let named = read(alloc, args.format, text)?;
    let asked = ask(named.as_slice(), &args.name)?;
    let (report, _answer) = solve_instance(rt, alloc, asked, &args.plan, args.gantt, crew)?;
    Ok(report)
}

/// Writes the report of the best schedule found for the instance in the text of `source`, as `solve_bytes` makes it.
/// Writes nothing before the search ends. Fails as `solve_bytes` does, and with `ReadFailed` or `WriteFailed` if a
/// device fails.
///
/// Leaks the answer with its open nodes, since freeing each takes time: meant for a program that exits after the
/// report.
pub fn solve_text<R, S: Source, K: Sink, C: Crew<R>>(
    rt: &R,
    alloc: Global,
    source: &mut S,
    sink: &mut K,
    args: &SolveArgs,
    crew: &mut C,
) -> Result<(), Fault>
    requires { C.ready }
    ensures right { WhereKnown
        (IsRightOf args.now.format (name_in args.now.name) args.now.gantt)
        (S.device source.old) (K.device sink.old) (K.device sink.new) result }
    ensures determined { WhereKnown (IsDeterminedOf args.now)
        (S.device source.old) (K.device sink.old) (K.device sink.new) result }
    ensures solving { IsSolving args.now (S.device source.old) (S.device source.new)
        (K.device sink.old) (K.device sink.new) result }
{
    let text = read_all(alloc, source)?;
    let named = read(alloc, args.format, text.as_slice())?;
    let asked = ask(named.as_slice(), &args.name)?;
    let (written, answer) = solve_instance(rt, alloc, asked, &args.plan, args.gantt, crew)?;
    mem::forget(answer);
    write_all(sink, written.as_slice())
}
