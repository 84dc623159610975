// The verdict on a table: its makespan if it is feasible, else its first fault.
ghost use Rattle.std.specs.Prelude.{◌≡◌, ℕ, ◌↔◌, IsTrue, IfOk};
ghost use Rattle.shop_model.specs.{Shop.end_of, inner.FirstFaults.{TellsFirstEarly, TellsFirstOverlap}};
ghost use Rattle.shop_model.specs.Checking.{HasShape, starts_of, EndsAt, IsVerdict, IsChecked, NoneEarly};

use crate::instances::Instance;
use crate::ops::OperationId;
use crate::overlaps::first_overlap;
use crate::sorted_overlaps::first_overlap_sorted;
use crate::steps::{early_step, last_finish};
use crate::tables::Table;
use std::alloc::{AllocError as NoMemory, Global};

/// The verdict of `check` on a table: its makespan, or its first fault.
#[derive(Clone, Copy, Debug, PartialEq, Eq)]
pub enum Verdict {
    /// The table is feasible. Its last operation ends at `makespan`, in units of time; 0 if the instance has no
    /// operation.
    Feasible {
        makespan: u64,
    },
    /// The table lacks a start for an operation of the instance, or has a start too many.
    WrongSize,
    /// The job begins before its release.
    Unreleased {
        job: usize,
    },
    /// Step `step` of the job, which is not its first, begins before the step before it ends.
    Early {
        job: usize,
        step: usize,
    },
    /// Two operations of one machine overlap: neither ends before the other begins. `first` comes before `second` by
    /// job and step. An operation of time 0 overlaps another if it is strictly inside it.
    Overlap {
        machine: usize,
        first: OperationId,
        second: OperationId,
    },
}

/// Returns whether `table` has one start for each operation of `instance`, and no other.
fn has_shape(instance: &Instance, table: &Table) -> bool
    ensures { IsTrue result ↔ HasShape instance.now table.now }
{
    if table.len() != instance.jobs() {
        return false;
    }
    for j in 0..instance.jobs() {
        if table.row(j).len() != instance.route(j).len() {
            return false;
        }
    }
    true
}

/// Finds the first operation, by job and step, that begins before its job's release or before the step before it ends;
/// `None` if there is none.
fn first_early(instance: &Instance, table: &Table) -> Option<OperationId>
    requires { HasShape instance.now table.now }
    ensures { TellsFirstEarly instance.now (starts_of table.now) result }
{
    for j in 0..instance.jobs() {
        if let Some(k) = early_step(instance.release(j), instance.route(j), table.row(j)) {
            return Some(OperationId { job: j, step: k });
        }
    }
    None
}

/// Returns when the last operation of `table` ends, in units of time; 0 if the instance has no operation. Requires one
/// start for each operation, and no other.
pub fn makespan(instance: &Instance, table: &Table) -> u64
    requires { HasShape instance.now table.now }
    ensures { result ≡ end_of instance.now (starts_of table.now) }
{
    let mut end = 0;
    for j in 0..instance.jobs() {
        end = end.max(last_finish(instance.route(j), table.row(j)));
    }
    end
}

/// Returns the verdict on a table of the right shape in which no operation begins too early. `overlap` is its first
/// pair of operations that overlap, if there is one.
fn verdict_of(
    instance: &Instance,
    table: &Table,
    overlap: Option<(OperationId, OperationId)>,
) -> Verdict
    requires shape { HasShape instance.now table.now }
    requires in_time { NoneEarly instance.now (starts_of table.now) }
    requires overlap { TellsFirstOverlap instance.now (starts_of table.now) overlap }
    ensures { IsChecked instance.now table.now result }
{
    match overlap {
        Some((first, second)) => Verdict::Overlap {
            machine: instance.route(first.job)[first.step].machine,
            first,
            second,
        },
        None => Verdict::Feasible {
            makespan: makespan(instance, table),
        },
    }
}

/// Judges `table` as a schedule of `instance` (disjunctive model): returns its makespan if it is feasible, else its
/// first fault. A wrong size comes first, then steps that begin too early, in order of job and step, then overlaps, in
/// order of the pair. Takes no memory, and time in proportion to the pairs of jobs times the length of a route.
pub fn check(instance: &Instance, table: &Table) -> Verdict
    // What the verdict says is so.
    ensures verdict { IsVerdict instance.now table.now result }

    // Feasible tables, and tables of another shape, are reported as such.
    ensures feasible { (c : ℕ) → (result ≡ Verdict.Feasible c) ↔ EndsAt instance.now table.now c }
    ensures wrong_size { (result ≡ Verdict.WrongSize) ↔ (HasShape instance.now table.now → ⊥) }
{
    if !has_shape(instance, table) {
        return Verdict::WrongSize;
    }
    if let Some(at) = first_early(instance, table) {
        return if at.step == 0 {
            Verdict::Unreleased { job: at.job }
        } else {
            Verdict::Early {
                job: at.job,
                step: at.step,
            }
        };
    }
    verdict_of(instance, table, first_overlap(instance, table))
}

/// Gives the verdict of `check` by sorting the operations: n operations take n log n steps, whatever the verdict. Fails
/// with `NoMemory` if memory runs out.
pub fn check_quickly(alloc: Global, instance: &Instance, table: &Table) -> Result<Verdict, NoMemory>
    ensures { IfOk result (λ v. IsChecked instance.now table.now v) }
{
    if !has_shape(instance, table) || first_early(instance, table).is_some() {
        return Ok(check(instance, table));
    }
    let overlap = first_overlap_sorted(alloc, instance, table)?;
    Ok(verdict_of(instance, table, overlap))
}
