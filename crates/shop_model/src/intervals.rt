// The intervals of a table: when each machine is taken, sorted by machine and by start.
ghost use Rattle.std.specs.Prelude.{◌≡◌, ◌<◌, ◌⊎◌, ◌↔◌, ◌++◌, length, IsTrue, IfOk, OnOk};
ghost use Rattle.shop_model.specs.{inner.Steps.AreSmallEnds, Checking.HasShape};
ghost use Rattle.shop_model.specs.inner.Intervals.{intervals_at, intervals_of, IsInTurn, AreInTurn};
ghost use Rattle.shop_model.specs.inner.ClearIntervals.{EndsNotAfter, IsBetween, AreInOrder, AreClearOf};

use crate::instances::Instance;
use crate::ops::Op;
use crate::tables::Table;
use std::alloc::{AllocError as NoMemory, Global};

/// The interval of an operation in a table: its machine, and from when to when the operation takes it.
#[derive(Clone, Copy, PartialEq, Eq, PartialOrd, Ord)]
pub(crate) struct Interval {
    pub(crate) machine: usize,
    pub(crate) start: u64,
    pub(crate) finish: u64,
}

/// Adds the intervals of the job with this `route` and these starts, `row`, to `intervals`. Fails with `NoMemory` if
/// memory runs out.
fn push_intervals(intervals: &mut Vec<Interval>, route: &[Op], row: &[u64]) -> Result<(), NoMemory>
    requires { AreSmallEnds route.now row.now }
    ensures { OnOk result (intervals.new.items ≡ intervals.old.items ++ intervals_at route.now row.now) }
{
    for k in 0..route.len() {
        intervals.push(Interval {
            machine: route[k].machine,
            start: row[k],
            finish: row[k] + route[k].time,
        })?;
    }
    Ok(())
}

/// Lists the intervals of all operations, job by job. Fails with `NoMemory` if memory runs out.
pub(crate) fn intervals(
    alloc: Global,
    instance: &Instance,
    table: &Table,
) -> Result<Vec<Interval>, NoMemory>
    requires { HasShape instance.now table.now }
    ensures { IfOk result (λ v. v.items ≡ intervals_of instance.now table.now) }
{
    let mut intervals = Vec::with_capacity(alloc, instance.operations())?;
    for j in 0..instance.jobs() {
        push_intervals(&mut intervals, instance.route(j), table.row(j))?;
    }
    Ok(intervals)
}

/// Returns whether interval `one` is on a lower machine than `other`, or on its machine and ends before `other` begins.
fn is_in_turn(one: &Interval, other: &Interval) -> bool
    ensures { IsTrue result ↔ IsInTurn one.now other.now }
{
    one.machine < other.machine || one.machine == other.machine && one.finish <= other.start
}

/// Returns whether each interval is in turn with the next one, as `is_in_turn` says.
pub(crate) fn are_in_turn(intervals: &[Interval]) -> bool
    ensures { IsTrue result ↔ AreInTurn intervals.now }
{
    for k in 1..intervals.len() {
        if !is_in_turn(&intervals[k - 1], &intervals[k]) {
            return false;
        }
    }
    true
}

/// Returns the interval on the higher machine; if both are on one machine, the interval that ends last.
fn last_to_end(one: &Interval, other: &Interval) -> Interval
    ensures choice { (result ≡ one.now) ⊎ (result ≡ other.now) }
    ensures one { EndsNotAfter one.now result }
    ensures other { EndsNotAfter other.now result }
{
    if one.machine < other.machine || one.machine == other.machine && one.finish < other.finish {
        *other
    } else {
        *one
    }
}

/// Returns whether interval `k` of the sorted `intervals` overlaps with no other. `latest` is the one that ends last of
/// those before it.
fn is_clear(latest: &Interval, intervals: &[Interval], k: usize) -> bool
    requires { k < length intervals.now }
    ensures { IsTrue result ↔ IsBetween latest.now intervals.now k }
{
    is_in_turn(latest, &intervals[k])
        && (k + 1 == intervals.len() || is_in_turn(&intervals[k], &intervals[k + 1]))
}

/// Keeps those of the sorted `intervals` that overlap with no other, in one pass and in place. An interval overlaps
/// with an earlier one if it begins before the latest end so far on its machine, and with a later one if the next one
/// of its machine begins before it ends. Both tests are exact, since of those that begin together those of time 0 come
/// first.
pub(crate) fn keep_clear(intervals: &mut Vec<Interval>)
    requires { AreInOrder intervals.old.items }
    ensures { AreClearOf intervals.old.items intervals.new.items }
{
    let mut count = 0;
    let mut latest = Interval {
        machine: 0,
        start: 0,
        finish: 0,
    };
    for k in 0..intervals.len() {
        let one = intervals[k];
        let is_kept = is_clear(&latest, intervals.as_slice(), k);
        latest = last_to_end(&latest, &one);
        if is_kept {
            intervals[count] = one;
            count += 1;
        }
    }
    intervals.truncate(count);
}
