// The third round gathered: entries after a hit don't count.
ghost use Rattle.shop_runs.specs.Entries.{told};
ghost use Rattle.shop_runs.specs.Crews.{OneForEach};

use crate::rounds::{RoundTest, in_third_round};
use crate::telling::assert_entries;
use shop_round::{Alone, PieceSearcher};
use shop_runs::{Crew, Entry, PieceSearch, Round, gather};
use std::alloc::Global;
use std::process::Abort;

fn assert_closes<'r>(rt: &impl Abort, alloc: Global, round: &'r Round<'r>, entries: Vec<Entry<'r>>)
    requires { OneForEach (told round.now) entries.items }
{
    let standing = gather(alloc, round, entries).expect(rt, "memory");
    assert_eq!(rt;
        [
            standing.makespan,
            standing.open.len() as u64,
            standing.nodes
        ],
        [10, 0, 10]
    );
}

/// The sheet of each piece, also of those after one that ends at the opening bound.
fn all_searched<'r>(rt: &impl Abort, alloc: Global, round: &'r Round<'r>) -> Vec<Entry<'r>>
    ensures { OneForEach (told round.now) result.items }
{
    let mut entries = Vec::new(alloc);
    for number in 0..round.pieces.len() {
        let mut searcher = PieceSearcher::over(round);
        let sheet = searcher.search(alloc, number).expect(rt, "memory");
        entries.push(Entry::done(round, sheet)).expect(rt, "memory");
    }
    entries
}

/// Closed by sheets of all pieces, and by sheets up to the hit and passed pieces after it.
struct Closing;

impl<R: Abort> RoundTest<R> for Closing {
    ghost ready = { Unit {0} };

    fn run<'r>(&self, rt: &R, alloc: Global, round: &'r Round<'r>) {
        let searched = all_searched(rt, alloc, round);
        assert_entries(rt, alloc, &searched, "10 1 0, 12 2 0, 14 2 0, ");
        assert_closes(rt, alloc, round, searched);
        let passed = Alone.search(&(), alloc, round).expect(rt, "memory");
        assert_entries(rt, alloc, &passed, "10 1 0, by 0, by 0, ");
        assert_closes(rt, alloc, round, passed);
    }
}

#[test]
fn entries_behind_a_hit_do_not_count(rt: HostRuntime) {
    in_third_round(&rt, rt.alloc(), &Closing);
}
