// Gantt texts.
ghost use Rattle.std.specs.Prelude.{◌≡◌, ◌<◌, ◌≤◌, ◌++◌, ◌&&◌, nat_le, nat_lt, length, IfOk, OnOk};
ghost use Rattle.shop_model.specs.{Shop.IsFeasible, Checking.{HasShape, starts_of}};
ghost use Rattle.shop_text.specs.Writing.{character_of, shown_cells, printed_line, cells_line, unit_of, gantt_text};
ghost use Rattle.shop_text.specs.inner.Cells.{AllEndWithin, ShowsJob, ShowsWhere};

use crate::limits::MAX_COLUMNS;
use shop_model::{Instance, Table, makespan};
use std::alloc::{AllocError as NoMemory, Global};

/// The characters of jobs 0 to 61; all later jobs have `#`.
const CHARACTERS: &[u8; 62] = b"0123456789ABCDEFGHIJKLMNOPQRSTUVWXYZabcdefghijklmnopqrstuvwxyz";

/// Returns the character of job `j`.
fn character(j: usize) -> u8
    ensures { result ≡ character_of j }
{
    if j < CHARACTERS.len() {
        CHARACTERS[j]
    } else {
        b'#'
    }
}

/// Writes `character` into the columns from `from` up to `to` (excluded).
fn show(cells: &mut [u8], from: usize, to: usize, character: u8)
    requires order { from ≤ to }
    requires within { to ≤ length cells.old }
    ensures { ShowsWhere cells.old cells.new character (λ column. nat_le from column && nat_lt column to) }
{
    for column in from..to {
        cells[column] = character;
    }
}

/// Writes the character of job `j` into the columns at whose instants `machine` serves the job. A column is `unit`
/// units of time.
fn show_job(
    cells: &mut [u8],
    unit: u64,
    machine: usize,
    j: usize,
    instance: &Instance,
    table: &Table,
)
    requires unit { 0 < unit }
    requires shape { HasShape instance.now table.now }
    requires job { j < length instance.now.jobs }
    requires within { AllEndWithin instance.now (starts_of table.now) unit (length cells.old) }
    ensures { ShowsJob instance.now (starts_of table.now) machine unit j cells.old cells.new }
{
    let route = instance.route(j);
    let starts = table.row(j);
    let character = character(j);
    for k in 0..route.len() {
        if route[k].machine == machine {
            let from = starts[k].div_ceil(unit) as usize;
            let to = (starts[k] + route[k].time).div_ceil(unit) as usize;
            show(cells, from, to, character);
        }
    }
}

/// Writes into each column the character of the job that `machine` serves at the column's instant, or a dot if it
/// serves none. Requires a feasible table, in which a machine serves one job at a time.
fn show_machine(cells: &mut [u8], unit: u64, machine: usize, instance: &Instance, table: &Table)
    requires unit { 0 < unit }
    requires shape { HasShape instance.now table.now }
    requires feasible { IsFeasible instance.now (starts_of table.now) }
    requires within { AllEndWithin instance.now (starts_of table.now) unit (length cells.old) }
    ensures { cells.new ≡ shown_cells instance.now (starts_of table.now) machine unit (length cells.old) }
{
    let columns = cells.len();
    show(cells, 0, columns, b'.');
    for j in 0..instance.jobs() {
        show_job(cells, unit, machine, j, instance, table);
    }
}

/// Returns how many units of time a column shows: the least number with at most 72 columns.
fn unit(makespan: u64) -> u64
    ensures unit { result ≡ unit_of makespan }
    ensures some { 0 < result }
{
    makespan.div_ceil(MAX_COLUMNS).max(1)
}

/// Writes the line of `machine` with the columns `cells`. Fails with `NoMemory` if memory runs out.
fn write_machine(
    out: &mut Vec<u8>,
    alloc: Global,
    machine: usize,
    cells: &[u8],
) -> Result<(), NoMemory>
    ensures { OnOk result (out.new.items ≡ out.old.items ++ printed_line (cells_line machine cells.now)) }
{
    let begin = format!(in alloc; "machine {machine} |")?;
    out.extend_from_slice(begin.as_bytes())?;
    out.extend_from_slice(cells)?;
    out.extend_from_slice(b"|\n")
}

/// Makes the Gantt text of `table`, a feasible one: a line with the unit of time, and for each machine a line of at
/// most 72 columns. Column c shows the job that the machine serves c units after 0, or a dot; operations of time 0
/// never show. Fails with `NoMemory` if memory runs out.
pub fn gantt(alloc: Global, instance: &Instance, table: &Table) -> Result<Vec<u8>, NoMemory>
    requires shape { HasShape instance.now table.now }
    requires feasible { IsFeasible instance.now (starts_of table.now) }
    ensures { IfOk result (λ v. v.items ≡ gantt_text instance.now (starts_of table.now)) }
{
    let makespan = makespan(instance, table);
    let unit = unit(makespan);
    let mut buffer = vec![in alloc; b'.'; makespan.div_ceil(unit) as usize]?;
    let cells = buffer.as_mut_slice();
    let mut out = format!(in alloc; "unit {unit}\n")?.into_bytes();
    for machine in 0..instance.machines() {
        show_machine(cells, unit, machine, instance, table);
        write_machine(&mut out, alloc, machine, cells)?;
    }
    Ok(out)
}
