// States filled from random words, each from the beginning of the one before, and then from words that begin otherwise:
// their candidates are the conflict sets of the words. Jobs are finished early or late, are released late, and come
// back to machines.
ghost use Rattle.std.specs.Prelude.{◌≡◌};
ghost use Rattle.shop_states.specs.inner.WordStates.{IsRoom};

use crate::in_lanes::{Tried, assert_in_lanes};
use crate::long_machines::{LATEST, SHAPES, made};
use crate::numbers::Numbers;
use shop_lanes::StateLanes;
use shop_model::{Instance, Word, fits, is_full};
use shop_nodes::conflict;
use shop_states::{CandidateList, Dispatcher, State};
use std::alloc::{AllocGlobal, Global};
use std::process::Abort;

/// Makes the word of the jobs of `path`.
fn word_along(rt: &impl Abort, alloc: Global, path: &[u16]) -> Word
    ensures { result ≡ path.now }
{
    let mut jobs = Vec::new(alloc);
    for &job in path {
        jobs.push(job as usize).expect(rt, "memory");
    }
    Word::of_jobs(jobs)
}

/// Returns whether `path` is a word. Fills `state` from it then, and asserts that the state lists its conflict set.
fn assert_fill<L: StateLanes>(
    rt: &(impl Abort + AllocGlobal),
    dispatcher: &mut Dispatcher<'_, '_, L>,
    instance: &Instance,
    state: &mut State<L>,
    path: &[u16],
) -> bool
    requires shop { dispatcher.old.laid_out.asked ≡ instance.now }
    requires state { IsRoom L.StateLanes dispatcher.old.laid_out state.old }
    ensures state { IsRoom L.StateLanes dispatcher.old.laid_out state.new }
    ensures same { dispatcher.new ≡ dispatcher.old }
{
    let alloc = rt.alloc();
    let word = word_along(rt, alloc, path);
    if !fits(instance, &word) {
        return false;
    }
    let mut list = CandidateList::new(alloc, instance.jobs()).expect(rt, "memory");
    dispatcher.fill(path, state);
    dispatcher.list_candidates(state, u64::MAX, &mut list);
    let candidates = list.as_slice();
    if is_full(instance, &word) {
        assert!(rt; candidates.is_empty());
        return true;
    }
    let jobs = conflict(alloc, instance, &word).expect(rt, "memory");
    assert_eq!(rt; candidates.len(), jobs.len());
    for (candidate, job) in candidates.iter().zip(&jobs) {
        assert_eq!(rt; candidate.job as usize, *job);
    }
    true
}

/// Fills a state from each beginning of a random word.
fn assert_fills_along<L: StateLanes>(
    rt: &(impl Abort + AllocGlobal),
    numbers: &mut Numbers,
    dispatcher: &mut Dispatcher<'_, '_, L>,
    instance: &Instance,
    state: &mut State<L>,
)
    requires shop { dispatcher.old.laid_out.asked ≡ instance.now }
    requires state { IsRoom L.StateLanes dispatcher.old.laid_out state.old }
    ensures state { IsRoom L.StateLanes dispatcher.old.laid_out state.new }
    ensures same { dispatcher.new ≡ dispatcher.old }
{
    let mut path = Vec::new(rt.alloc());
    instance.keeps_limits();
    let last = instance.jobs().saturating_sub(1) as u32;
    for _ in 0..instance.operations() {
        let job = numbers.up_to(last) as u16;
        path.push(job).expect(rt, "memory");
        let is_word = assert_fill(rt, dispatcher, instance, state, path.as_slice());
        if !is_word {
            path.pop();
        }
    }
}

/// Fills a state from each beginning of two random words.
pub fn assert_fills<L: StateLanes>(
    rt: &(impl Abort + AllocGlobal),
    numbers: &mut Numbers,
    dispatcher: &mut Dispatcher<'_, '_, L>,
    instance: &Instance,
)
    requires { dispatcher.old.laid_out.asked ≡ instance.now }
{
    let alloc = rt.alloc();
    let mut state = dispatcher.room(alloc).expect(rt, "memory");
    assert_fills_along(rt, numbers, dispatcher, instance, &mut state);
    assert_fills_along(rt, numbers, dispatcher, instance, &mut state);
}

#[test]
fn candidates_of_filled_states(rt: HostRuntime) {
    let mut numbers = Numbers { state: 3 };
    for shape in &SHAPES {
        for latest in &LATEST {
            let instance = made(&rt, rt.alloc(), &mut numbers, shape, *latest);
            assert_in_lanes(&rt, &mut numbers, &instance, Tried::Fills);
        }
    }
}
