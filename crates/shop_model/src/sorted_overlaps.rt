// The first operations that overlap, found by sorting.
ghost use Rattle.std.specs.Prelude.{IfOk};
ghost use Rattle.shop_model.specs.{Checking.{HasShape, starts_of}, inner.FirstFaults.TellsFirstOverlap};
ghost use Rattle.shop_model.specs.inner.ClearIntervals.{AreOfApart};

use crate::instances::Instance;
use crate::intervals::{Interval, are_in_turn, intervals, keep_clear};
use crate::ops::OperationId;
use crate::overlaps::first_overlap_of;
use crate::tables::Table;
use std::alloc::{AllocError as NoMemory, Global};

/// Finds the first pair of operations that overlap; `None` if there is none. If `clear_intervals` has all clear ones,
/// the first operation whose interval it lacks overlaps with another one, which comes later, since all operations
/// before are clear. So one binary search fails, and one pass through all operations finds the second of the pair.
fn first_unclear_overlap(
    instance: &Instance,
    table: &Table,
    clear_intervals: &[Interval],
) -> Option<(OperationId, OperationId)>
    requires shape { HasShape instance.now table.now }
    requires apart { AreOfApart instance.now table.now clear_intervals.now }
    ensures { TellsFirstOverlap instance.now (starts_of table.now) result }
{
    for j in 0..instance.jobs() {
        if let Some((k, second)) = first_overlap_of(instance, table, clear_intervals, j) {
            return Some((OperationId { job: j, step: k }, second));
        }
    }
    None
}

/// Finds the first pair of operations that overlap: none if, sorted by machine and start, each operation ends before
/// the next one of its machine begins. n operations take at most n log n steps. Fails with `NoMemory` if memory runs
/// out.
pub(crate) fn first_overlap_sorted(
    alloc: Global,
    instance: &Instance,
    table: &Table,
) -> Result<Option<(OperationId, OperationId)>, NoMemory>
    requires { HasShape instance.now table.now }
    ensures { IfOk result (λ o. TellsFirstOverlap instance.now (starts_of table.now) o) }
{
    let mut intervals = intervals(alloc, instance, table)?;
    intervals.sort()?;
    if are_in_turn(intervals.as_slice()) {
        return Ok(None);
    }
    keep_clear(&mut intervals);
    Ok(first_unclear_overlap(instance, table, intervals.as_slice()))
}
