// A dispatch in a copy of a state, beside one in place and one without a bound: the bounds are equal, and the states
// behave alike. So too if the children of a word were bounded together.
ghost use Rattle.std.specs.Prelude.{◌≡◌, ◌<◌, ℕ, ◌++◌, ◌∷◌, [], All, IfSome, OnSome, length, slice_index_or};
ghost use Rattle.shop_model.specs.Word.{IsWord};
ghost use Rattle.shop_bound.specs.{Bound.lb, Conflicts.conflict};
ghost use Rattle.shop_states.specs.States.{CanDispatch, HasDispatched, ListsBelow, TellsBoundBelow};
ghost use Rattle.shop_states.specs.inner.WordStates.{IsCandidate, IsRoom, IsStateOf, IsStateWith, KnowsChild};

use crate::in_lanes::{Tried, assert_in_lanes};
use crate::long_machines::{LATEST, SHAPES, made};
use crate::numbers::Numbers;
use shop_bound::lower_bound;
use shop_lanes::StateLanes;
use shop_model::{Instance, Job, Op, Word};
use shop_states::{Candidate, CandidateList, Dispatcher, State};
use std::alloc::{AllocGlobal, Global};
use std::mem;
use std::process::Abort;

/// The state of a word three times: `placed` goes on by dispatches in place, `settled` by dispatches without a bound,
/// and `state` by dispatches in its copy `direct`.
#[derive(Drop)]
struct Rooms<L: StateLanes> {
    state: State<L>,
    direct: State<L>,
    placed: State<L>,
    settled: State<L>,
}

/// Makes rooms for states of `dispatcher`.
fn rooms_of<L: StateLanes>(
    rt: &impl Abort,
    alloc: Global,
    dispatcher: &Dispatcher<'_, '_, L>,
) -> Rooms<L>
    ensures state { IsRoom L.StateLanes dispatcher.now.laid_out result.state }
    ensures direct { IsRoom L.StateLanes dispatcher.now.laid_out result.direct }
    ensures placed { IsRoom L.StateLanes dispatcher.now.laid_out result.placed }
    ensures settled { IsRoom L.StateLanes dispatcher.now.laid_out result.settled }
{
    Rooms {
        state: dispatcher.room(alloc).expect(rt, "memory"),
        direct: dispatcher.room(alloc).expect(rt, "memory"),
        placed: dispatcher.room(alloc).expect(rt, "memory"),
        settled: dispatcher.room(alloc).expect(rt, "memory"),
    }
}

/// A candidate to dispatch, with the bound of its word, and the limit below which the child's bound is returned.
/// `together` is what `bound_children` returned for the word, or `None` if it wasn't called.
#[derive(Clone, Copy)]
struct Trial {
    candidate: Candidate,
    bound: u64,
    limit: u64,
    together: Option<u64>,
}

/// Dispatches a candidate in a copy of the state by one call: that after `bound_children`, if children were bounded
/// together.
fn dispatch_at_once<L: StateLanes>(
    dispatcher: &mut Dispatcher<'_, '_, L>,
    state: &State<L>,
    direct: &mut State<L>,
    trial: Trial,
) -> Option<u64>
    requires direct { IsRoom L.StateLanes dispatcher.old.laid_out direct.old }
    requires can { CanDispatch dispatcher.old.laid_out.asked
        (λ w. IsStateWith L.StateLanes dispatcher.old.laid_out trial.candidate state.now w
        × IfSome trial.together
        (λ top. KnowsChild dispatcher.old.laid_out dispatcher.old.ceilings w trial.candidate.job))
        trial.candidate.job trial.bound }
    ensures dispatched { HasDispatched dispatcher.old.laid_out.asked
        (IsStateWith L.StateLanes dispatcher.old.laid_out trial.candidate state.now)
        (λ w. IsStateOf L.StateLanes dispatcher.old.laid_out w direct.new)
        trial.candidate.job trial.bound trial.limit result }
    ensures direct { IsRoom L.StateLanes dispatcher.old.laid_out direct.new }
    ensures dispatcher { dispatcher.new ≡ dispatcher.old }
{
    let (candidate, bound, limit) = (trial.candidate, trial.bound, trial.limit);
    match trial.together {
        Some(_) => dispatcher.dispatch_in_copy::<true>(state, direct, candidate, bound, limit),
        None => dispatcher.dispatch_in_copy::<false>(state, direct, candidate, bound, limit),
    }
}

/// Dispatches a candidate of the word `path`, whose states `rooms` has, in each of them, and asserts that the dispatch
/// in place and the one in a copy return the same bound.
fn dispatch_twice<L: StateLanes>(
    rt: &impl Abort,
    dispatcher: &mut Dispatcher<'_, '_, L>,
    rooms: &mut Rooms<L>,
    path: &[u16],
    trial: Trial,
) -> Option<u64>
    requires direct { IsRoom L.StateLanes dispatcher.old.laid_out rooms.old.direct }
    requires placed { IsStateOf L.StateLanes dispatcher.old.laid_out path.now rooms.old.placed }
    requires settled { IsStateOf L.StateLanes dispatcher.old.laid_out path.now rooms.old.settled }
    requires word { IsWord dispatcher.old.laid_out.asked path.now }
    requires state { IsStateWith L.StateLanes dispatcher.old.laid_out trial.candidate rooms.old.state path.now }
    requires known { IfSome trial.together
        (λ top. KnowsChild dispatcher.old.laid_out dispatcher.old.ceilings path.now trial.candidate.job) }
    requires fits { IsWord dispatcher.old.laid_out.asked (path.now ++ trial.candidate.job ∷ []) }
    requires bound { trial.bound ≡ lb dispatcher.old.laid_out.asked path.now }
    ensures told { TellsBoundBelow trial.limit
        (lb dispatcher.old.laid_out.asked (path.now ++ trial.candidate.job ∷ [])) result }
    ensures placed { OnSome result
        (IsStateOf L.StateLanes dispatcher.old.laid_out (path.now ++ trial.candidate.job ∷ []) rooms.new.placed) }
    ensures same { OnSome result
        (IsStateOf L.StateLanes dispatcher.old.laid_out (path.now ++ trial.candidate.job ∷ []) rooms.new.direct) }
    ensures alike { IsStateOf L.StateLanes dispatcher.old.laid_out (path.now ++ trial.candidate.job ∷ [])
        rooms.new.settled }
    ensures direct { IsRoom L.StateLanes dispatcher.old.laid_out rooms.new.direct }
    ensures room { IsRoom L.StateLanes dispatcher.old.laid_out rooms.new.placed }
    ensures first { rooms.new.state ≡ rooms.old.state }
    ensures dispatcher { dispatcher.new ≡ dispatcher.old }
{
    let (candidate, bound, limit) = (trial.candidate, trial.bound, trial.limit);
    dispatcher.dispatch_settled(&mut rooms.settled, candidate);
    let told = dispatcher.dispatch_below(&mut rooms.placed, candidate, bound, limit);
    let (state, direct) = (&rooms.state, &mut rooms.direct);
    let again = dispatch_at_once(dispatcher, state, direct, trial);
    assert_eq!(rt; told, again);
    again
}

/// How children are dispatched in a walk: each alone, or after `bound_children`, where that bounds them together.
#[derive(Clone, Copy)]
pub enum Manner {
    Alone,
    Together,
}

/// Bounds the children of the word `path` together, if they are to be dispatched so. Uses up
/// `rooms.direct`.
fn bound_together<L: StateLanes>(
    dispatcher: &mut Dispatcher<'_, '_, L>,
    rooms: &mut Rooms<L>,
    path: &[u16],
    candidates: &[Candidate],
    bound: u64,
    manner: Manner,
) -> Option<u64>
    requires direct { IsRoom L.StateLanes dispatcher.old.laid_out rooms.old.direct }
    requires state { IsStateOf L.StateLanes dispatcher.old.laid_out path.now rooms.old.state }
    requires listed { (others : ℕ) × ListsBelow dispatcher.old.laid_out.asked path.now 18446744073709551615
        (IsCandidate dispatcher.old.laid_out path.now)
        (conflict dispatcher.old.laid_out.asked path.now) candidates.now others }
    requires bound { bound ≡ lb dispatcher.old.laid_out.asked path.now }
    ensures known { IfSome result (λ top.
        All (λ c. KnowsChild dispatcher.old.laid_out dispatcher.new.ceilings path.now c.job) candidates.now) }
    ensures state { rooms.new.state ≡ rooms.old.state }
    ensures direct { IsRoom L.StateLanes dispatcher.old.laid_out rooms.new.direct }
    ensures placed { rooms.new.placed ≡ rooms.old.placed }
    ensures settled { rooms.new.settled ≡ rooms.old.settled }
    ensures laid_out { dispatcher.new.laid_out ≡ dispatcher.old.laid_out }
{
    match manner {
        Manner::Alone => None,
        Manner::Together => {
            let (state, direct) = (&rooms.state, &mut rooms.direct);
            dispatcher.bound_children(state, direct, candidates, bound)
        }
    }
}

/// Returns the candidate at `index`.
fn candidate_at(candidates: &[Candidate], index: usize) -> Candidate
    requires { index < length candidates.now }
    ensures { result ≡ slice_index_or candidates.now index result }
{
    candidates[index]
}

/// Asserts that two lists have the same candidates.
fn assert_same(rt: &impl Abort, candidates: &[Candidate], others: &[Candidate]) {
    assert_eq!(rt; candidates.len(), others.len());
    for (candidate, other) in candidates.iter().zip(others) {
        assert_eq!(rt; candidate.job, other.job);
        assert_eq!(rt; candidate.own, other.own);
    }
}

/// Walks a random word of `instance`. Asserts that each dispatch in a copy returns the same bound as one in place, and
/// that these states, one after dispatches without a bound, and one filled from the word have the same candidates.
/// After a dispatch that reached the limit, `placed` and `settled` are filled anew.
pub fn assert_walk<L: StateLanes>(
    rt: &impl Abort,
    alloc: Global,
    numbers: &mut Numbers,
    dispatcher: &mut Dispatcher<'_, '_, L>,
    instance: &Instance,
    manner: Manner,
)
    requires { dispatcher.old.laid_out.asked ≡ instance.now }
{
    let mut rooms = rooms_of(rt, alloc, dispatcher);
    let mut candidates = CandidateList::new(alloc, instance.jobs()).expect(rt, "memory");
    let mut others = CandidateList::new(alloc, instance.jobs()).expect(rt, "memory");
    let mut path = Vec::new(alloc);
    let word = Word::of_jobs(Vec::new(alloc));
    let mut bound = lower_bound(alloc, instance, &word).expect(rt, "memory");
    dispatcher.fill(&[], &mut rooms.state);
    dispatcher.fill(&[], &mut rooms.placed);
    dispatcher.fill(&[], &mut rooms.settled);
    for _ in 0..instance.operations() {
        dispatcher.list_candidates(&rooms.state, u64::MAX, &mut candidates);
        let count = candidates.len();
        if count == 0 {
            return;
        }
        let index = numbers.up_to(u32::MAX) as usize % count;
        let listed = candidates.as_slice();
        let candidate = candidate_at(listed, index);
        let limit = bound.saturating_add(numbers.up_to(99));
        let together = bound_together(
            dispatcher,
            &mut rooms,
            path.as_slice(),
            listed,
            bound,
            manner,
        );
        let trial = Trial {
            candidate,
            bound,
            limit,
            together,
        };
        let told = dispatch_twice(rt, dispatcher, &mut rooms, path.as_slice(), trial);
        let Some(below) = told else {
            dispatcher.fill(path.as_slice(), &mut rooms.placed);
            dispatcher.fill(path.as_slice(), &mut rooms.settled);
            continue;
        };
        path.push(candidate.job).expect(rt, "memory");
        dispatcher.list_candidates(&rooms.placed, u64::MAX, &mut candidates);
        dispatcher.list_candidates(&rooms.direct, u64::MAX, &mut others);
        assert_same(rt, candidates.as_slice(), others.as_slice());
        dispatcher.list_candidates(&rooms.settled, u64::MAX, &mut others);
        assert_same(rt, candidates.as_slice(), others.as_slice());
        dispatcher.fill(path.as_slice(), &mut rooms.state);
        dispatcher.list_candidates(&rooms.state, u64::MAX, &mut others);
        assert_same(rt, candidates.as_slice(), others.as_slice());
        mem::swap(&mut rooms.state, &mut rooms.direct);
        bound = below;
    }
}

/// Walks a random word of each instance with long machines, to which routes come back. Machines of more than 64
/// operations are marked in several parts, and operations of time 0 are among them.
fn assert_walks_of_long_machines(rt: &(impl Abort + AllocGlobal), manner: Manner) {
    let mut numbers = Numbers { state: 7 };
    for shape in &SHAPES {
        let instance = made(rt, rt.alloc(), &mut numbers, shape, 5);
        assert_in_lanes(rt, &mut numbers, &instance, Tried::Walk(manner));
    }
}

#[test]
fn dispatches_in_copies(rt: HostRuntime) {
    assert_walks_of_long_machines(&rt, Manner::Alone);
}

#[test]
fn dispatches_children_in_copies_of_long_machines(rt: HostRuntime) {
    assert_walks_of_long_machines(&rt, Manner::Together);
}

/// How many jobs and machines, and the greatest time: of one to nine blocks a machine, in lanes of each width.
static SQUARES: [(usize, usize, u32); 10] = [
    (6, 6, 9),
    (10, 5, 9),
    (20, 5, 9),
    (20, 5, 0),
    (30, 4, 9),
    (48, 3, 9),
    (64, 3, 9),
    (68, 3, 9),
    (20, 5, 9_000),
    (15, 5, 1_000_000_000),
];

/// Makes an instance each of whose jobs has an operation on each machine, one machine after another.
fn made_square(
    rt: &impl Abort,
    alloc: Global,
    numbers: &mut Numbers,
    shape: &(usize, usize, u32),
    latest: u32,
) -> Instance {
    let (count, machines, most) = *shape;
    let mut jobs = Vec::new(alloc);
    for _ in 0..count {
        let mut route = Vec::new(alloc);
        let first = numbers.up_to(99) as usize;
        for step in 0..machines {
            let machine = first.wrapping_add(step) % machines.max(1);
            let time = numbers.up_to(most);
            route.push(Op { machine, time }).expect(rt, "memory");
        }
        let release = numbers.up_to(latest);
        jobs.push(Job { release, route }).expect(rt, "memory");
    }
    match Instance::of_jobs(machines, jobs) {
        Ok(instance) => instance,
        Err(_) => panic!(rt; "an instance within the limits"),
    }
}

/// Walks a random word of each square instance.
fn assert_walks_of_squares(rt: &(impl Abort + AllocGlobal), manner: Manner) {
    let mut numbers = Numbers { state: 7 };
    for shape in &SQUARES {
        for latest in &LATEST {
            let instance = made_square(rt, rt.alloc(), &mut numbers, shape, *latest);
            assert_in_lanes(rt, &mut numbers, &instance, Tried::Walk(manner));
        }
    }
}

#[test]
fn dispatches_in_copies_of_even_machines(rt: HostRuntime) {
    assert_walks_of_squares(&rt, Manner::Alone);
}

#[test]
fn dispatches_children_in_copies(rt: HostRuntime) {
    assert_walks_of_squares(&rt, Manner::Together);
}
