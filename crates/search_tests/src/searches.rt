// Sheets of worked pieces: what a search finds, counts and leaves.
ghost use Rattle.shop_nodes.specs.Nodes.{AreNodes};

use crate::branches::node_of;
use crate::instances::{CROSSING, GAP, ZEROS, instance_of};
use crate::words::{assert_told, tell_nodes, tell_word};
use shop_layout::Layout;
use shop_model::Instance;
use shop_nodes::{Piece, Sheet};
use shop_tree::{Searcher, search};
use std::alloc::Global;
use std::fmt::Write;
use std::process::Abort;

fn two_nodes(
    rt: &impl Abort,
    alloc: Global,
    instance: &Instance,
    first: &str,
    second: &str,
) -> Piece
    ensures { AreNodes instance.now result.nodes.items }
{
    let first = node_of(rt, alloc, instance, first);
    let second = node_of(rt, alloc, instance, second);
    Piece::new(0, vec![in alloc; first, second].expect(rt, "memory"))
}

/// Makes the piece of one word or two.
pub fn piece_of(rt: &impl Abort, alloc: Global, instance: &Instance, words: &[&str]) -> Piece
    ensures { AreNodes instance.now result.nodes.items }
{
    match words {
        [word] => {
            let node = node_of(rt, alloc, instance, word);
            Piece::new(0, vec![in alloc; node].expect(rt, "memory"))
        }
        [first, second] => two_nodes(rt, alloc, instance, first, second),
        _ => panic!(rt; "one word or two"),
    }
}

/// Tells a sheet: its makespan, the nodes taken, the word found, and the nodes left with their bounds.
fn told_of(rt: &impl Abort, alloc: Global, sheet: &Sheet) -> String {
    let mut told = format!(in alloc; "{} {} ", sheet.makespan, sheet.taken).expect(rt, "memory");
    if let Some(word) = &sheet.found {
        tell_word(rt, &mut told, word);
    }
    let left = sheet.left.nodes(alloc).expect(rt, "memory");
    tell_nodes(rt, &mut told, &left);
    told
}

/// An instance, the words of a piece, the opening best, the budget, and the sheet: its makespan, the nodes taken, the
/// word found, and the nodes left with their bounds.
type Search = (
    &'static str,
    &'static [&'static str],
    u64,
    u64,
    &'static str,
);

/// Searches of pieces. In `GAP` the children of word `1` have bounds 10 and 12, so neither is below an opening best of
/// 10. The bound of word `10`, 12, is not below the makespan found, also where it is below the opening best.
static SEARCHES: [Search; 20] = [
    (CROSSING, &[""], 11, 100, "7 6 1001"),
    (CROSSING, &[""], 11, 5, "7 5 1001 11:11"),
    (CROSSING, &[""], 11, 1, "11 1  1:7"),
    (ZEROS, &[""], 10, 100, "5 8 100101"),
    (GAP, &[""], 16, 100, "10 8 110100"),
    (GAP, &[""], 16, 3, "16 3  110:10 10:12"),
    (GAP, &["110"], 16, 3, "16 3  110100:10"),
    (GAP, &["10"], 16, 3, "16 3  10101:12 10100:14"),
    (GAP, &["110100"], 16, 3, "10 1 110100"),
    (GAP, &["10101"], 16, 3, "12 2 101010"),
    (GAP, &["10100"], 16, 3, "14 2 101001"),
    (GAP, &["110", "10"], 16, 100, "10 5 110100"),
    (GAP, &["10", "110"], 16, 100, "10 10 110100"),
    (GAP, &["10", "110"], 16, 3, "16 3  10101:12 10100:14 110:10"),
    (GAP, &["10", "110"], 16, 7, "12 7 101010 1101:10"),
    (GAP, &[""], 10, 2, "10 2  11:10 10:12"),
    (GAP, &[""], 10, 3, "10 3  10:12"),
    (GAP, &[""], 10, 4, "10 4 "),
    (GAP, &[""], 12, 7, "10 7 110100 10:12"),
    (GAP, &[""], 13, 7, "10 7 110100 10:12"),
];

fn assert_search(rt: &impl Abort, alloc: Global, row: &Search) {
    let (text, words, best, budget, wanted) = *row;
    let instance = instance_of(rt, alloc, text);
    let piece = piece_of(rt, alloc, &instance, words);
    assert!(rt; budget <= 100);
    let sheet = search(alloc, &instance, &piece, best, budget).expect(rt, "memory");
    let told = told_of(rt, alloc, &sheet);
    assert_told(rt, text, told.as_str(), wanted);
}

#[test]
fn sheets_of_pieces(rt: HostRuntime) {
    for row in &SEARCHES {
        assert_search(&rt, rt.alloc(), row);
    }
}

/// Asserts the sheet of a searcher that keeps at most `most` states for pending children, and searches the piece twice.
fn assert_search_with_states(rt: &impl Abort, alloc: Global, row: &Search, most: usize) {
    let (text, words, best, budget, wanted) = *row;
    let instance = instance_of(rt, alloc, text);
    let piece = piece_of(rt, alloc, &instance, words);
    let layout = Layout::of(alloc, &instance).expect(rt, "memory");
    assert!(rt; budget <= 100);
    let mut searcher = Searcher::with_states(&layout, most);
    let first = searcher.search(alloc, &piece, best, budget);
    let first = first.expect(rt, "memory");
    let second = searcher.search(alloc, &piece, best, budget);
    let second = second.expect(rt, "memory");
    assert_told(rt, text, told_of(rt, alloc, &first).as_str(), wanted);
    assert_told(rt, text, told_of(rt, alloc, &second).as_str(), wanted);
}

/// However few states a walk keeps, its sheets are the same.
#[test]
fn sheets_of_pieces_with_few_states(rt: HostRuntime) {
    for row in &SEARCHES {
        for most in [0, 1, 2] {
            assert_search_with_states(&rt, rt.alloc(), row, most);
        }
    }
}
