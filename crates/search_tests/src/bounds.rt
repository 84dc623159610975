// Heads and tails of operations, lower bounds of words, and the schedule of the start word.
use crate::instances::{CROSSING, FT06, GAP, RELEASED, instance_of};
use crate::words::{assert_told, tell_word, word_of};
use shop_bound::{Heads, lower_bound, tails};
use shop_model::{Instance, Table, Verdict, Word, check, fits, is_full, place, start_word};
use std::alloc::Global;
use std::process::Abort;

/// A job, a step, and its head once job 1 has begun.
static HEADS: [(usize, usize, Option<u64>); 6] = [
    (0, 0, Some(0)),
    (0, 1, Some(3)),
    (1, 0, None),
    (1, 1, Some(2)),
    (1, 2, None),
    (2, 0, None),
];

fn assert_heads(rt: &impl Abort, alloc: Global, instance: &Instance, word: &Word) {
    assert!(rt; fits(instance, word));
    let heads = Heads::of(alloc, instance, word).expect(rt, "memory");
    for (job, step, head) in &HEADS {
        assert_eq!(rt; heads.head(*job, *step), *head, "job {job}, step {step}");
    }
}

#[test]
fn heads_and_tails_of_two_jobs_that_cross(rt: HostRuntime) {
    let instance = instance_of(&rt, rt.alloc(), CROSSING);
    assert_heads(&rt, rt.alloc(), &instance, &word_of(&rt, rt.alloc(), "1"));
    let rows = tails(rt.alloc(), &instance).expect(&rt, "memory");
    assert_eq!(rt; rows.len(), 2);
    assert_eq!(rt; rows[0].as_slice(), [2, 0].as_slice());
    assert_eq!(rt; rows[1].as_slice(), [4, 0].as_slice());
}

/// An instance, the jobs of a word, and its lower bound.
static BOUNDS: [(&str, &str, u64); 11] = [
    (CROSSING, "", 7),
    (CROSSING, "1", 7),
    (CROSSING, "11", 11),
    (CROSSING, "100", 7),
    (GAP, "", 9),
    (GAP, "11", 10),
    (GAP, "10", 12),
    (RELEASED, "", 10),
    (RELEASED, "0011", 11),
    (FT06, "", 52),
    (FT06, "000000111111222222333333444444555555", 152),
];

fn assert_bound(rt: &impl Abort, alloc: Global, instance: &Instance, word: &Word, bound: u64) {
    assert!(rt; fits(instance, word));
    let told = lower_bound(alloc, instance, word).expect(rt, "memory");
    assert_eq!(rt; told, bound);
}

#[test]
fn bounds_of_words(rt: HostRuntime) {
    for (text, digits, bound) in &BOUNDS {
        let instance = instance_of(&rt, rt.alloc(), text);
        let word = word_of(&rt, rt.alloc(), digits);
        assert_bound(&rt, rt.alloc(), &instance, &word, *bound);
    }
}

fn assert_jobs(rt: &impl Abort, alloc: Global, word: &Word, digits: &str) {
    let mut told = String::new(alloc);
    tell_word(rt, &mut told, word);
    assert_told(rt, "a word", told.as_str(), digits);
}

fn assert_placed(rt: &impl Abort, instance: &Instance, table: &Table, starts: [u64; 4]) {
    let told = [
        table.start(0, 0),
        table.start(0, 1),
        table.start(1, 0),
        table.start(1, 1),
    ];
    assert_eq!(rt; told, starts.map(Some));
    assert!(rt; check(instance, table) == Verdict::Feasible { makespan: 11 });
}

#[test]
fn the_start_word_and_its_schedule(rt: HostRuntime) {
    let alloc = rt.alloc();
    let instance = instance_of(&rt, alloc, CROSSING);
    let word = start_word(alloc, &instance).expect(&rt, "memory");
    let copy = word.copied(alloc).expect(&rt, "memory");
    assert_jobs(&rt, alloc, &word, "0011");
    assert_jobs(&rt, alloc, &copy, "0011");
    assert!(rt; is_full(&instance, &copy));
    let table = place(alloc, &instance, &copy).expect(&rt, "memory");
    assert_placed(&rt, &instance, &table, [0, 3, 5, 7]);
}
