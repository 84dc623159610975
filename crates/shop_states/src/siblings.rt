// Bounds the children of a word before any of them is dispatched. All candidates wait on one machine, and each delays
// the other operations that wait there until its own ends, at the latest until the latest of these ends. So if heads
// are raised as if every operation there had to wait until then, no head of a child is higher, and no span is greater.
// One pass over the machines whose heads rose thus bounds nearly all children.
ghost use Rattle.std.specs.Prelude.{◌≡◌, ℕ, ◌≤◌, ◌<◌, List, ◌∷◌, ◌++◌, [], length};
ghost use Rattle.shop_model.specs.Shop.{Shop};
ghost use Rattle.shop_bound.specs.Bound.{lb};
ghost use Rattle.shop_states.specs.inner.{Advances.IsAdvancing, Ceilings.AreChildCeilings, LaidLanes.rows_in};
ghost use Rattle.shop_states.specs.inner.{LaneStates.IsKeptInLanes, MachineRaises.AreEmpty};
ghost use Rattle.shop_states.specs.inner.Siblings.{AreLatest, AreSiblings, CanBoundChildren, CanEnd, end_by, job_at};

use crate::late_raises::{LateMachine, Latest};
use crate::machine_raises::MachineRaises;
use crate::states::Candidate;
use shop_lanes::StateLanes;
use shop_layout::{Grid, Routes};

/// Returns when, in lanes, the next operation of `job` ends if it goes first.
#[inline(always)]
fn end_of<L: StateLanes>(lanes: &L, routes: &Routes, next: &[u32], job: usize) -> u64
    requires { CanEnd L.GREATEST routes.now (L.heads lanes.now) next.now job }
    ensures end { result ≡ end_by (L.heads lanes.now) routes.now.times next.now job }
    ensures fits { result ≤ L.GREATEST }
{
    let position = next[job] as usize;
    lanes.head(position) + routes.time(position)
}

/// Finds the latest end of the operations of `candidates`, of which there is at least one, and the latest end of the
/// others.
fn latest_of<L: StateLanes>(
    candidates: &[Candidate],
    lanes: &L,
    routes: &Routes,
    next: &[u32],
) -> Latest
    requires some { 0 < length candidates.now }
    requires can { (i : ℕ) → i < length candidates.now
        → CanEnd L.GREATEST routes.now (L.heads lanes.now) next.now (job_at candidates.now i) }
    ensures { AreLatest (end_by (L.heads lanes.now) routes.now.times next.now) candidates.now result }
{
    let job = candidates[0].job as usize;
    let end = end_of(lanes, routes, next, job);
    let mut latest = Latest {
        job,
        end,
        second: 0,
    };
    for index in 1..candidates.len() {
        let job = candidates[index].job as usize;
        let end = end_of(lanes, routes, next, job);
        if end > latest.end {
            let second = latest.end;
            latest = Latest { job, end, second };
        } else if job != latest.job && end > latest.second {
            latest.second = end;
        }
    }
    latest
}

/// Returns the greatest of `bound` and the `own` of each candidate.
fn greatest_own(candidates: &[Candidate], bound: u64) -> u64 {
    candidates
        .iter()
        .map(|candidate| candidate.own)
        .fold(bound, u64::max)
}

/// Finds a ceiling for each machine: a number that no span of a child exceeds there, whichever candidate is dispatched.
/// On the candidates' own machine it covers only spans from after the dispatched operation's end: `own` covers the
/// others. Writes the ceilings, in lanes, into `ceilings`. Returns the greatest ceiling, or a number above the `own` of
/// each candidate. `lanes` holds the heads of the word and is used up; `next` has its next operations.
#[inline(never)]
pub(crate) fn bound_children<L: StateLanes>(
    lanes: &mut L,
    raises: &mut MachineRaises<L>,
    ceilings: &mut [u64],
    grid: &Grid<L>,
    next: &[u32],
    candidates: &[Candidate],
    bound: u64,
) -> u64
    requires at_rest { AreEmpty raises.old }
    requires room { length ceilings.old ≡ length raises.old }
    requires some { 0 < length candidates.now }
    requires can { CanBoundChildren L.GREATEST grid.now (rows_in L.StateLanes grid.now lanes.old) next.now
        candidates.now bound (length raises.old) }
    ensures known { (shop : Shop) (w : List ℕ)
        → IsKeptInLanes L.GREATEST shop w grid.now (rows_in L.StateLanes grid.now lanes.old) next.now
        → AreSiblings shop w candidates.now → bound ≡ lb shop w → (i : ℕ)
        → i < length candidates.now → AreChildCeilings shop w grid.now (job_at candidates.now i) ceilings.new }
    ensures settled { (shop : Shop) (w : List ℕ)
        → IsKeptInLanes L.GREATEST shop w grid.now (rows_in L.StateLanes grid.now lanes.old) next.now
        → AreSiblings shop w candidates.now → bound ≡ lb shop w → (i least : ℕ) → i < length candidates.now
        → IsAdvancing L.GREATEST shop w grid.now (rows_in L.StateLanes grid.now lanes.old) next.now
        (job_at candidates.now i) least → result ≤ least → lb shop (w ++ job_at candidates.now i ∷ []) ≡ least }
    ensures long { length ceilings.new ≡ length ceilings.old }
    ensures positions { length (L.heads lanes.new) ≡ length (L.heads lanes.old) }
    ensures ends { L.ends lanes.new ≡ L.ends lanes.old }
    ensures machines { length raises.new ≡ length raises.old }
    ensures rest { AreEmpty raises.new }
{
    let routes = grid.routes();
    let latest = latest_of(candidates, lanes, &routes, next);
    let last = next[latest.job] as usize;
    let machine = routes.machine(last) as usize;
    let (from, behind) = grid.blocks_of(grid.fixed_blocks_each(), machine);
    let late = LateMachine {
        from,
        behind,
        last,
        latest,
    };
    let raised = raises.raise_late(lanes, &routes, late);
    let limit = greatest_own(candidates, bound).saturating_add(2);
    raises.take_ceilings(raised, ceilings, lanes, grid, bound, limit)
}
