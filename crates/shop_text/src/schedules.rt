// Reads the table of a schedule text from the lines of its jobs.
ghost use Rattle.std.specs.Prelude.{◌≡◌, ◌≤◌, ◌∷◌, length, codes, IfOk};
ghost use Rattle.shop_text.specs.{Lines.tokens_of, Schedules.{is_label, starts_of_tokens, row_in, IsTableRead}};
ghost use Rattle.shop_text.specs.inner.ScheduleReading.{FollowsJob, row_read, AreRowsRead};

use crate::faults::ReadFault;
use crate::limits::MAX_TEXT;
use crate::lines::{next_line, next_number, next_token, number_of};
use shop_model::{Instance, MAX_JOBS, MAX_START, Table};
use std::alloc::{AllocError as NoMemory, Global};

/// Returns the rest of a line after its first token if this is `job`, else `None`.
fn after_job(line: &[u8]) -> Option<&[u8]>
    ensures { FollowsJob (tokens_of line.now) result }
{
    let (token, rest) = next_token(line)?;
    (token == b"job".as_slice()).then_some(rest)
}

/// Returns whether `token` is the number of job `j` and a colon.
#[tactic(auto, using(crate::proofs::JobLineLemmas::no_label, crate::proofs::JobLineLemmas::label_by))]
fn names_job(j: usize, token: &[u8]) -> bool
    requires { j ≤ MAX_JOBS }
    ensures { result ≡ is_label j token.now }
{
    let last = token.len().saturating_sub(1);
    last > 0 && token[last] == b':' && number_of(&token[..last]) == Some(j as u64)
}

/// Reads the starts after the label of a line; `None` unless they are `steps` starts and nothing else. Fails with
/// `NoMemory` if memory runs out.
fn starts_behind(alloc: Global, steps: usize, behind: &[u8]) -> Result<Option<Vec<u64>>, NoMemory>
    ensures { IfOk result (λ row. row_read row ≡ starts_of_tokens steps (tokens_of behind.now)) }
{
    let mut starts = Vec::with_capacity(alloc, steps)?;
    let mut rest = behind;
    while let Some((number, after)) = next_number(rest) {
        if starts.len() == steps {
            return Ok(None);
        }
        match number {
            Some(start) if start <= MAX_START => starts.push(start).unwrap(),
            _ => return Ok(None),
        }
        rest = after;
    }
    Ok((starts.len() == steps).then_some(starts))
}

/// Reads the starts of job `j` from `behind`, the rest of a line after the token `job`; `None` if this is no line of
/// job `j`. Fails with `NoMemory` if memory runs out.
fn row_behind(
    alloc: Global,
    instance: &Instance,
    j: usize,
    behind: &[u8],
) -> Result<Option<Vec<u64>>, NoMemory>
    ensures { IfOk result (λ row. row_read row ≡ row_in instance.now j (codes "job" ∷ tokens_of behind.now)) }
{
    if j >= instance.jobs() {
        return Ok(None);
    }
    let steps = instance.route(j).len();
    match next_token(behind) {
        Some((label, rest)) if names_job(j, label) => starts_behind(alloc, steps, rest),
        _ => Ok(None),
    }
}

/// Reads the rows of the lines that begin with `job`. Fails with `BadTable` at the first faulty one, or with `NoMemory`
/// if memory runs out.
fn rows_in(alloc: Global, instance: &Instance, text: &[u8]) -> Result<Vec<Vec<u64>>, ReadFault>
    requires { length text.now ≤ MAX_TEXT }
    ensures { AreRowsRead instance.now text.now result }
{
    let mut rows = Vec::with_capacity(alloc, instance.jobs())?;
    let mut rest = text;
    let mut number: usize = 0;
    while rest.len() > 0 {
        let (line, after) = next_line(rest);
        rest = after;
        number += 1;
        let Some(behind) = after_job(line) else {
            continue;
        };
        let Some(row) = row_behind(alloc, instance, rows.len(), behind)? else {
            return Err(ReadFault::BadTable { line: number });
        };
        rows.push(row)?;
    }
    if rows.len() == instance.jobs() {
        Ok(rows)
    } else {
        Err(ReadFault::BadTable { line: number + 1 })
    }
}

/// Reads the table of a schedule text from the lines whose first token is `job`, one for each job of `instance`, in
/// order. Skips other lines, so a report is a schedule text. Fails with `TooLong` above 16,777,216 bytes, and with
/// `BadTable` at the first line of a job that is faulty or one too many; if a job's line is missing, the line of the
/// fault is one more than the text has. Fails with `NoMemory` if memory runs out.
#[tactic(auto, using(crate::proofs::TableRows::table_within))]
pub fn read_table(alloc: Global, instance: &Instance, text: &[u8]) -> Result<Table, ReadFault>
    ensures { IsTableRead instance.now text.now result }
{
    if text.len() > MAX_TEXT {
        return Err(ReadFault::TooLong);
    }
    let rows = rows_in(alloc, instance, text)?;
    Ok(Table::of_checked(rows))
}
