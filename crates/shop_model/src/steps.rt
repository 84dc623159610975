// One job's operations against its row of starts.
ghost use Rattle.std.specs.Prelude.{◌≡◌, ◌+◌, ◌≤◌, ◌↔◌, IsTrue};
ghost use Rattle.shop_model.specs.inner.Steps.{AreSmallEnds, KeepsOrder, AreClear, TellsEarlyStep, TellsFirstClash};
ghost use Rattle.shop_model.specs.inner.Steps.{end_at};

use crate::limits::{MAX_START, MAX_TIME};
use crate::ops::Op;

/// Finds the first step that begins before `release` or before the step before it ends; `None` if there is none.
pub(crate) fn early_step(release: u64, route: &[Op], row: &[u64]) -> Option<usize>
    requires { AreSmallEnds route.now row.now }
    ensures { TellsEarlyStep release route.now row.now result }
{
    let mut ready = release;
    for k in 0..route.len() {
        let start = row[k];
        if start < ready {
            return Some(k);
        }
        ready = start + route[k].time;
    }
    None
}

/// Finds the first step, from step `from` on, that overlaps with an operation on `machine` from `start` to `finish`;
/// `None` if there is none.
pub(crate) fn clash_from(
    machine: usize,
    start: u64,
    finish: u64,
    route: &[Op],
    row: &[u64],
    from: usize,
) -> Option<usize>
    requires { AreSmallEnds route.now row.now }
    ensures { TellsFirstClash machine start finish route.now row.now from result }
{
    for k in from..route.len() {
        if route[k].machine == machine && row[k] < finish && start < row[k] + route[k].time {
            return Some(k);
        }
    }
    None
}

/// Returns whether no step of one job overlaps with a step of another job on its machine. Each job does its steps in
/// order. So of two steps the one that ends first is clear of all that the other job does later, and one pass through
/// both jobs is enough.
pub(crate) fn are_clear(route: &[Op], row: &[u64], others: &[Op], other_row: &[u64]) -> bool
    requires small { AreSmallEnds route.now row.now }
    requires others_small { AreSmallEnds others.now other_row.now }
    requires in_order { KeepsOrder route.now row.now }
    requires others_in_order { KeepsOrder others.now other_row.now }
    ensures { IsTrue result ↔ AreClear route.now row.now others.now other_row.now }
{
    let mut k = 0;
    let mut l = 0;
    while k < route.len() && l < others.len() {
        let finish = row[k] + route[k].time;
        let other_finish = other_row[l] + others[l].time;
        if route[k].machine == others[l].machine && row[k] < other_finish && other_row[l] < finish {
            return false;
        }
        if finish <= other_finish {
            k += 1;
            continue;
        }
        l += 1;
    }
    true
}

/// Returns when the last step ends; 0 if `route` is empty.
pub(crate) fn last_finish(route: &[Op], row: &[u64]) -> u64
    requires { AreSmallEnds route.now row.now }
    ensures end { result ≡ end_at route.now row.now }
    ensures small { result ≤ MAX_START + MAX_TIME }
{
    let mut end = 0;
    for k in 0..route.len() {
        end = end.max(row[k] + route[k].time);
    }
    end
}
