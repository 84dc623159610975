// Lists a word's candidates: the jobs of its conflict set, each with a lower bound of the word extended by that job.
ghost use Rattle.std.specs.Prelude.{◌≡◌, ℕ, ◌+◌, ◌-◌, ◌*◌, ◌^◌, ◌≤◌, ◌<◌, List, [], ◌∷◌, ◌++◌, length, map, take};
ghost use Rattle.std.specs.Prelude.{IfOk, MatchOption};
ghost use Rattle.shop_model.specs.Shop.{Shop};
ghost use Rattle.shop_bound.specs.Conflicts.{conflict};
ghost use Rattle.shop_states.specs.inner.Candidates.{AreCandidatesOf, CanGather, CanList, IsChosenBy, IsTold};
ghost use Rattle.shop_states.specs.inner.{Candidates.{ListsGathered, ListsOwn, told_at}, LaneChoices.IsJobBelow};
ghost use Rattle.shop_states.specs.States.{AreOwnsBelow};
ghost use Rattle.shop_states.specs.inner.{LaidLanes.{KeepsWord, rows_in}, Raises.IsInBlocks};
ghost use Rattle.shop_states.specs.inner.RisingLists.{IsGatheredWith, IsIn};
ghost use Rattle.shop_layout.specs.Positions.{HoldsMachines};

use crate::dispatches::marks_end;
use crate::job_sets::JOBS_PER_NUMBER;
use crate::lane_choices::{ConflictBlocks, conflict_set, is_alone};
use crate::lane_times::own_time;
use crate::states::{Candidate, State};
use shop_lanes::{Marks, StateLanes};
use shop_layout::Grid;
use std::alloc::{AllocError as NoMemory, Global};
use std::marker::Model;

/// Candidates in a list that never grows: there is room for one for each job from the start, so that a candidate is
/// listed by a write and a count.
#[derive(Drop)]
pub struct CandidateList {
    /// the candidates, then what listings left
    list: Vec<Candidate>,
    /// how many candidates there are
    count: usize,
}

impl Model for CandidateList {
    ghost use Rattle.std.specs.Prelude.{◌≤◌, length, take};
    ghost use Rattle.shop_states.specs.States.{CandidateListState};

    ghost Value = { CandidateListState };

    ghost view = { λ l. record { items = take l.count l.list.items; room = length l.list.items } };

    ghost invariant = { λ l. l.count ≤ length l.list.items };
}

impl CandidateList {
    /// Makes an empty list with room for `room` candidates. Fails with `NoMemory` if memory runs out.
    pub fn new(alloc: Global, room: usize) -> Result<CandidateList, NoMemory>
        ensures none { IfOk result (λ l. l.items ≡ []) }
        ensures room { IfOk result (λ l. l.room ≡ room) }
    {
        let list = vec![in alloc; Candidate { job: 0, own: 0 }; room]?;
        Ok(CandidateList { list, count: 0 })
    }

    /// How many candidates there are.
    #[inline(always)]
    pub fn len(&self) -> usize
        ensures { result ≡ length self.now.items }
    {
        self.count
    }

    /// Returns the candidate of a list of one.
    #[inline(always)]
    pub fn sole(&self) -> Candidate
        requires { length self.now.items ≡ 1 }
        ensures { self.now.items ≡ result ∷ [] }
    {
        self.list[0]
    }

    /// Returns the candidates.
    #[inline(always)]
    pub fn as_slice(&self) -> &[Candidate]
        ensures { result.now ≡ self.now.items }
    {
        &self.list[..self.count]
    }
}

/// How many jobs of a conflict set were looked at, and how many candidates of them were listed.
#[derive(Clone, Copy)]
pub(crate) struct Tally {
    pub seen: usize,
    pub listed: usize,
}

/// Lists the candidates of the marked `jobs` whose `own` is below `limit`, behind those that `before` counts. Returns
/// the tally with these jobs. `owns[i]` is the own span, in lanes, of the operation at position `first` + `i`: how late
/// it, and the others of its machine with their tails, end if it goes first. `own` is the time that this means.
#[inline(always)]
fn list_marked<L: StateLanes>(
    list: &mut [Candidate],
    before: Tally,
    jobs: Marks,
    next: &[u32],
    first: usize,
    owns: &[L::Number],
    limit: u64,
) -> Tally
    requires small { length next.now < 1024 }
    requires told { (j : ℕ) → IsIn jobs j → IsTold next.now first (length owns.now) j }
    requires tally { before.listed ≤ before.seen }
    requires few { before.seen + length jobs < 1024 }
    requires room { before.seen + length jobs ≤ length list.old }
    ensures listed { (js : List ℕ)
        → ListsOwn limit (told_at next.now first (map L.value owns.now)) js
        (take before.listed list.old) (before.seen - before.listed)
        → ListsOwn limit (told_at next.now first (map L.value owns.now)) (js ++ jobs)
        (take result.listed list.new) (result.seen - result.listed) }
    ensures tally { result.listed ≤ result.seen }
    ensures seen { result.seen ≡ before.seen + length jobs }
    ensures room { length list.new ≡ length list.old }
{
    let mut tally = before;
    let mut left = jobs;
    while let Some(job) = left.pop_first() {
        let own = own_time(L::widened(owns[next[job] as usize - first]));
        list[tally.listed] = Candidate {
            job: job as u16,
            own,
        };
        tally.seen += 1;
        // no branch, since it would often be mispredicted: what is left out isn't counted
        tally.listed += usize::from(own < limit);
    }
    tally
}

/// The next operation that can end first: that of job `chosen`, on `machine`. `end` is its end in lanes.
#[derive(Clone, Copy)]
pub(crate) struct FirstEnd {
    pub chosen: usize,
    pub machine: usize,
    pub end: u64,
}

/// Lists the candidates of the conflict set in `blocks` whose `own` is below `limit`, at the beginning of `list`.
/// Returns the tally. `owns` holds the own spans from the first of these blocks on. The set has a bit for each job, in
/// `NUMBERS` numbers of 64 bits.
#[inline(always)]
fn list_conflict_set<const NUMBERS: usize, L: StateLanes>(
    list: &mut [Candidate],
    owns: &[L::Number],
    state: &State<L>,
    grid: &Grid<L>,
    blocks: ConflictBlocks,
    limit: u64,
) -> Tally
    requires can { CanList L.GREATEST grid.now (rows_in L.StateLanes grid.now state.now.lanes) state.now.next.items
        blocks (length owns.now) }
    requires numbers { NUMBERS ≤ 16 }
    requires fits { length state.now.next.items ≤ 64 * NUMBERS }
    requires room { length state.now.next.items ≤ length list.old }
    ensures listed { ListsGathered limit (told_at state.now.next.items (8 * blocks.from) (map L.value owns.now))
        (IsGatheredWith blocks.chosen (IsJobBelow grid.now (L.heads state.now.lanes)
        (IsInBlocks blocks.from blocks.behind) blocks.end)) (take result.listed list.new)
        (result.seen - result.listed) }
    ensures tally { result.listed ≤ result.seen }
    ensures few { result.seen ≤ length state.now.next.items }
    ensures room { length list.new ≡ length list.old }
{
    let next = state.next.as_slice();
    let first = 8 * blocks.from;
    let set = conflict_set::<NUMBERS, L>(blocks, &state.lanes, grid);
    let numbers = set.numbers();
    let mut tally = Tally { seen: 0, listed: 0 };
    for index in 0..numbers.len() {
        let jobs = Marks::new(JOBS_PER_NUMBER * index, numbers[index]);
        tally = list_marked::<L>(list, tally, jobs, next, first, owns, limit);
    }
    tally
}

/// Finds the next operation that can end first. Returns `None` if no operation is left.
#[inline(always)]
fn first_end<L: StateLanes>(state: &State<L>, grid: &Grid<L>) -> Option<FirstEnd>
    requires { CanGather L.GREATEST grid.now (rows_in L.StateLanes grid.now state.now.lanes) state.now.next.items }
    ensures small { length (L.heads state.now.lanes) < 2 ^ 64 }
    ensures is { (shop : Shop) (w : List ℕ) → KeepsWord L.StateLanes grid.now state.now shop w
        → MatchOption result (conflict shop w ≡ [])
        (IsChosenBy L.GREATEST shop w grid.now (L.heads state.now.lanes) state.now.next.items) }
{
    let next = state.next.as_slice();
    let (chosen, end) = state.lanes.first_least_end();
    let position = next[chosen] as usize;
    if position >= grid.positions() {
        return None;
    }
    let machine = grid.routes().machine(position) as usize;
    Some(FirstEnd {
        chosen,
        machine,
        end,
    })
}

/// Lists the jobs of the conflict set whose `own` is below `limit`, at the beginning of `list`, and returns the tally.
/// Lists a sole candidate with `own` 0, whatever `limit` is. Uses up `owns`.
#[inline(always)]
fn list_in<L: StateLanes>(
    list: &mut [Candidate],
    owns: &mut [L::Number],
    state: &State<L>,
    grid: &Grid<L>,
    limit: u64,
) -> Tally
    requires can { CanGather L.GREATEST grid.now (rows_in L.StateLanes grid.now state.now.lanes) state.now.next.items }
    requires owns { HoldsMachines grid.now (length owns.old) }
    requires room { length state.now.next.items ≤ length list.old }
    ensures are { (shop : Shop) (w : List ℕ) → KeepsWord L.StateLanes grid.now state.now shop w
        → AreCandidatesOf shop w grid.now limit (take result.listed list.new) (result.seen - result.listed) }
    ensures low { AreOwnsBelow limit (take result.listed list.new) }
    ensures tally { result.listed ≤ result.seen }
    ensures few { result.seen ≤ length state.now.next.items }
    ensures long { length owns.new ≡ length owns.old }
    ensures room { length list.new ≡ length list.old }
{
    let Some(first) = first_end(state, grid) else {
        return Tally { seen: 0, listed: 0 };
    };
    let (from, behind) = grid.blocks_of(grid.fixed_blocks_each(), first.machine);
    let to = marks_end(from, behind);
    let below = state.lanes.below(from, to, first.end);
    let blocks = ConflictBlocks {
        chosen: first.chosen,
        end: first.end,
        from,
        to,
        behind,
        below,
    };
    let next = state.next.as_slice();
    // dispatching a sole candidate keeps the word's bound
    if is_alone(&blocks, &state.lanes, next[first.chosen] as usize) {
        let job = first.chosen as u16;
        list[0] = Candidate { job, own: 0 };
        return Tally { seen: 1, listed: 1 };
    }
    grid.own_spans(&state.lanes, from, behind, owns);
    // for few jobs the set is one number
    if next.len() <= JOBS_PER_NUMBER {
        return list_conflict_set::<1, L>(list, owns, state, grid, blocks, limit);
    }
    list_conflict_set::<16, L>(list, owns, state, grid, blocks, limit)
}

/// Replaces `candidates` by the jobs of the conflict set whose `own` is below `limit`. Returns how many are left out.
/// Lists a sole candidate with `own` 0, whatever `limit` is.
#[inline(always)]
pub(crate) fn list_candidates<L: StateLanes>(
    candidates: &mut CandidateList,
    owns: &mut [L::Number],
    state: &State<L>,
    grid: &Grid<L>,
    limit: u64,
) -> usize
    requires can { CanGather L.GREATEST grid.now (rows_in L.StateLanes grid.now state.now.lanes) state.now.next.items }
    requires owns { HoldsMachines grid.now (length owns.old) }
    requires room { length state.now.next.items ≤ candidates.old.room }
    ensures are { (shop : Shop) (w : List ℕ) → KeepsWord L.StateLanes grid.now state.now shop w
        → AreCandidatesOf shop w grid.now limit candidates.new.items result }
    ensures low { AreOwnsBelow limit candidates.new.items }
    ensures long { length owns.new ≡ length owns.old }
    ensures room { candidates.new.room ≡ candidates.old.room }
{
    let tally = list_in(candidates.list.as_mut_slice(), owns, state, grid, limit);
    candidates.count = tally.listed;
    tally.seen - tally.listed
}
