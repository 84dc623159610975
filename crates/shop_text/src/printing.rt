// The texts of reports, lists and verdicts.
ghost use Rattle.std.specs.Prelude.{◌≡◌, ◌++◌, IfOk, OnOk, string_bytes};
ghost use Rattle.shop_model.specs.Checking.{HasShape};
ghost use Rattle.shop_text.specs.Writing.{printed_line, text_of, status_word, answer_lines, job_line, report_text};
ghost use Rattle.shop_text.specs.{Writing.{list_text, verdict_text}, Reports.reported, Names.shops_of};

use crate::names::Named;
use crate::reports::Report;
use shop_model::Verdict;
use std::alloc::{AllocError as NoMemory, Global};

/// Returns the status of a report: `optimal` if no node is open, else `open`.
fn status(open_nodes: usize) -> &'static str
    ensures { result.now ≡ status_word open_nodes }
{
    if open_nodes == 0 { "optimal" } else { "open" }
}

/// Writes the lines before those of the jobs. Fails with `NoMemory` if memory runs out.
fn write_answer(out: &mut String, report: &Report) -> Result<(), NoMemory>
    ensures { OnOk result
        (string_bytes out.new ≡ string_bytes out.old ++ text_of (answer_lines (reported report.now))) }
{
    let (jobs, machines) = (report.instance.jobs(), report.instance.machines());
    writeln!(out, "instance {}", report.name)?;
    writeln!(out, "size {jobs} {machines}")?;
    writeln!(out, "makespan {}", report.makespan)?;
    writeln!(out, "bound {}", report.bound)?;
    writeln!(out, "status {}", status(report.open_nodes))?;
    writeln!(out, "open {}", report.open_nodes)?;
    writeln!(out, "rounds {}", report.rounds)?;
    writeln!(out, "nodes {}", report.nodes)
}

/// Writes the line of job `j`. Fails with `NoMemory` if memory runs out.
fn write_job(out: &mut String, j: usize, starts: &[u64]) -> Result<(), NoMemory>
    ensures { OnOk result (string_bytes out.new ≡ string_bytes out.old ++ printed_line (job_line j starts.now)) }
{
    write!(out, "job {j}:")?;
    for start in starts {
        write!(out, " {start}")?;
    }
    writeln!(out)
}

/// Makes the text of `report`: what the search returns, and a line for each job with the starts of its steps. The
/// status is `optimal` if no node is open, else `open`. Fails with `NoMemory` if memory runs out.
pub fn report(alloc: Global, report: &Report) -> Result<Vec<u8>, NoMemory>
    requires { HasShape report.now.instance.now report.now.table.now }
    ensures { IfOk result (λ v. v.items ≡ report_text (reported report.now)) }
{
    let mut out = String::new(alloc);
    write_answer(&mut out, report)?;
    for j in 0..report.table.len() {
        write_job(&mut out, j, report.table.row(j))?;
    }
    Ok(out.into_bytes())
}

/// Makes a line for each instance: its name, its number of jobs and its number of machines. Fails with `NoMemory` if
/// memory runs out.
pub fn listing(alloc: Global, named: &[Named]) -> Result<Vec<u8>, NoMemory>
    ensures { IfOk result (λ v. v.items ≡ list_text (shops_of named.now)) }
{
    let mut out = String::new(alloc);
    for one in named {
        let (jobs, machines) = (one.instance.jobs(), one.instance.machines());
        writeln!(out, "{} {jobs} {machines}", one.name)?;
    }
    Ok(out.into_bytes())
}

/// Makes the line of `verdict`. Fails with `NoMemory` if memory runs out.
fn verdict_string(alloc: Global, verdict: &Verdict) -> Result<String, NoMemory>
    ensures { IfOk result (λ s. string_bytes s ≡ verdict_text verdict.now) }
{
    match *verdict {
        Verdict::Feasible { makespan } => format!(in alloc; "feasible {makespan}\n"),
        Verdict::WrongSize => format!(in alloc; "infeasible: wrong size\n"),
        Verdict::Unreleased { job } => {
            format!(in alloc; "infeasible: job {job} step 0 begins before its release\n")
        }
        Verdict::Early { job, step } => {
            let before = step.saturating_sub(1);
            format!(in alloc;
                "infeasible: job {job} step {step} begins before step {before} ends\n"
            )
        }
        Verdict::Overlap {
            machine,
            first,
            second,
        } => {
            let (j, k, i, l) = (first.job, first.step, second.job, second.step);
            format!(in alloc;
                "infeasible: machine {machine} overlap of job {j} step {k} and job {i} step {l}\n"
            )
        }
    }
}

/// Makes the line of `verdict`, as bytes. Fails with `NoMemory` if memory runs out.
pub fn verdict_line(alloc: Global, verdict: &Verdict) -> Result<Vec<u8>, NoMemory>
    ensures { IfOk result (λ v. v.items ≡ verdict_text verdict.now) }
{
    Ok(verdict_string(alloc, verdict)?.into_bytes())
}
