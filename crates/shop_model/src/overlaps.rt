// Operations that overlap on their machine.
ghost use Rattle.std.specs.Prelude.{◌<◌, ◌↔◌, IsTrue, length};
ghost use Rattle.shop_model.specs.{Shop.IsOperation, Checking.{HasShape, starts_of, NoneEarly}};
ghost use Rattle.shop_model.specs.inner.FirstFaults.{IsJobApart, TellsFirstAfter, TellsFirstOverlapOf};
ghost use Rattle.shop_model.specs.{inner.FirstFaults.TellsFirstOverlap, inner.ClearIntervals.AreOfApart};

use crate::instances::Instance;
use crate::intervals::Interval;
use crate::ops::OperationId;
use crate::steps::{are_clear, clash_from};
use crate::tables::Table;

/// Finds the first operation after step `k` of job `j`, by job and step, that overlaps with it; `None` if there is
/// none.
fn first_overlap_with(instance: &Instance, table: &Table, j: usize, k: usize) -> Option<OperationId>
    requires shape { HasShape instance.now table.now }
    requires operation { IsOperation instance.now j k }
    ensures { TellsFirstAfter instance.now (starts_of table.now) j k result }
{
    let operation = instance.route(j)[k];
    let start = table.row(j)[k];
    let finish = start + operation.time;
    for i in j..instance.jobs() {
        let from = if i == j { k + 1 } else { 0 };
        if let Some(l) = clash_from(
            operation.machine,
            start,
            finish,
            instance.route(i),
            table.row(i),
            from,
        ) {
            return Some(OperationId { job: i, step: l });
        }
    }
    None
}

/// Finds the first operation after step `k` of job `j` that overlaps with it; `None` if there is none. Returns `None`
/// if a binary search in `clear_intervals`, sorted ones that overlap with no other, finds the operation's interval.
fn first_overlap_unless_clear(
    instance: &Instance,
    table: &Table,
    clear_intervals: &[Interval],
    j: usize,
    k: usize,
) -> Option<OperationId>
    requires shape { HasShape instance.now table.now }
    requires apart { AreOfApart instance.now table.now clear_intervals.now }
    requires operation { IsOperation instance.now j k }
    ensures { TellsFirstAfter instance.now (starts_of table.now) j k result }
{
    let operation = instance.route(j)[k];
    let start = table.row(j)[k];
    let interval = Interval {
        machine: operation.machine,
        start,
        finish: start + operation.time,
    };
    if clear_intervals.binary_search(&interval).is_ok() {
        return None;
    }
    first_overlap_with(instance, table, j, k)
}

/// Returns whether no operation of job `j` overlaps with one of a later job. Requires that no operation begins too
/// early.
fn is_job_apart(instance: &Instance, table: &Table, j: usize) -> bool
    requires shape { HasShape instance.now table.now }
    requires in_time { NoneEarly instance.now (starts_of table.now) }
    requires job { j < length instance.now.jobs }
    ensures { IsTrue result ↔ IsJobApart instance.now (starts_of table.now) j }
{
    let route = instance.route(j);
    let row = table.row(j);
    for i in j + 1..instance.jobs() {
        if !are_clear(route, row, instance.route(i), table.row(i)) {
            return false;
        }
    }
    true
}

/// Finds the first step of job `j` that overlaps with a later operation, and the first such operation; `None` if there
/// is none. Passes steps whose intervals are in `clear_intervals`, sorted ones that overlap with no other.
pub(crate) fn first_overlap_of(
    instance: &Instance,
    table: &Table,
    clear_intervals: &[Interval],
    j: usize,
) -> Option<(usize, OperationId)>
    requires shape { HasShape instance.now table.now }
    requires apart { AreOfApart instance.now table.now clear_intervals.now }
    requires job { j < length instance.now.jobs }
    ensures { TellsFirstOverlapOf instance.now (starts_of table.now) j result }
{
    for k in 0..instance.route(j).len() {
        if let Some(second) = first_overlap_unless_clear(instance, table, clear_intervals, j, k) {
            return Some((k, second));
        }
    }
    None
}

/// Finds the first pair of operations that overlap; `None` if there is none. Requires that no operation begins too
/// early.
pub(crate) fn first_overlap(
    instance: &Instance,
    table: &Table,
) -> Option<(OperationId, OperationId)>
    requires shape { HasShape instance.now table.now }
    requires in_time { NoneEarly instance.now (starts_of table.now) }
    ensures { TellsFirstOverlap instance.now (starts_of table.now) result }
{
    for j in 0..instance.jobs() {
        if is_job_apart(instance, table, j) {
            continue;
        }
        if let Some((k, second)) = first_overlap_of(instance, table, &[], j) {
            return Some((OperationId { job: j, step: k }, second));
        }
    }
    None
}
