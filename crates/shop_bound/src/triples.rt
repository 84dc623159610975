// `Triple`: an operation of one machine. `one_machine`: the one-machine bound by thresholds, which tries each head as
// least head with each tail as least tail.
ghost use Rattle.std.specs.Prelude.{◌≡◌, ◌+◌, ◌^◌, ◌<◌, sum_by};
ghost use Rattle.shop_bound.specs.{OneMachine.{one, IsSmall}, inner.Thresholds.span_above};

/// An operation of one machine, in units of time: it can begin at `head`, takes `time`, and needs `tail` after its end.
#[derive(Clone, Copy, Debug, PartialEq, Eq)]
pub struct Triple {
    pub head: u64,
    pub time: u64,
    pub tail: u64,
}

/// Padding: a triple of no operation.
pub(crate) const NO_TRIPLE: Triple = Triple {
    head: 0,
    time: 0,
    tail: 0,
};

/// Returns `head` plus `tail` plus the times of the operations with a head of at least `head` and a tail of at least
/// `tail`; 0 if there is no such operation.
fn span_of_above(triples: &[Triple], head: u64, tail: u64) -> u64
    requires { head + sum_by (λ t. t.time) triples.now + tail < 2 ^ 50 }
    ensures { result ≡ span_above triples.now head tail }
{
    let mut count: usize = 0;
    let mut sum = 0;
    for t in triples {
        if head <= t.head && tail <= t.tail {
            count += 1;
            sum += t.time;
        }
    }
    if count == 0 { 0 } else { head + sum + tail }
}

/// Returns the one-machine bound (Carlier 1982): the greatest of least head + sum of times + least tail over all
/// sublists of `triples`; 0 if `triples` is empty. Requires greatest head + sum of times + greatest tail below 2^50.
/// Takes cubic time. For library callers and for tests of `Jackson`: the program doesn't use `one_machine`.
pub fn one_machine(triples: &[Triple]) -> u64
    requires { IsSmall triples.now }
    ensures { result ≡ one triples.now }
{
    let mut best = 0;
    for first in triples {
        let mut most = 0;
        for last in triples {
            most = most.max(span_of_above(triples, first.head, last.tail));
        }
        best = best.max(most);
    }
    best
}
