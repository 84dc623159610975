// Rounds cut and gathered one by one, each lent to a test.
ghost use Rattle.std.specs.Prelude.{◌≡◌};
ghost use Rattle.shop_runs.specs.Standings.{IsStandingOf};

use crate::instances::{GAP, SHORT_JOBS, instance_of};
use crate::telling::{assert_told, told_of_nodes};
use shop_model::Instance;
use shop_nodes::Piece;
use shop_round::Alone;
use shop_runs::{Crew, Order, Plan, Round, Standing, gather};
use std::alloc::Global;
use std::process::Abort;

/// The next round of a standing that has an open node and a round left.
pub fn next_round<'r>(
    rt: &impl Abort,
    alloc: Global,
    instance: &'r Instance,
    plan: &Plan,
    standing: Standing,
) -> Round<'r>
    requires { IsStandingOf instance.now standing }
    ensures { result.instance.now ≡ instance.now }
{
    assert!(rt; !standing.open.is_empty() && standing.rounds < plan.rounds);
    Round::cut(alloc, instance, plan, standing).expect(rt, "memory")
}

/// The standing after the next round.
pub fn after_round(
    rt: &impl Abort,
    alloc: Global,
    instance: &Instance,
    plan: &Plan,
    standing: Standing,
) -> Standing
    requires { IsStandingOf instance.now standing }
    ensures { IsStandingOf instance.now result }
{
    let round = next_round(rt, alloc, instance, plan, standing);
    let entries = Alone.search(&(), alloc, &round).expect(rt, "memory");
    gather(alloc, &round, entries).expect(rt, "memory")
}

/// What a test does in a round.
pub trait RoundTest<R> {
    ghost ready: { Type 0 };

    fn run<'r>(&self, rt: &R, alloc: Global, round: &'r Round<'r>)
        requires { ready };
}

/// Lends the next round, of opening best 16 and opening bound 10, to a test.
fn lend_next_round<R: Abort, T: RoundTest<R>>(
    rt: &R,
    alloc: Global,
    instance: &Instance,
    plan: &Plan,
    standing: Standing,
    test: &T,
)
    requires standing { IsStandingOf instance.now standing }
    requires test { T.ready }
{
    let round = next_round(rt, alloc, instance, plan, standing);
    assert!(rt; round.best == 16 && round.bound == 10);
    test.run(rt, alloc, &round);
}

/// Lends the second round of `GAP` to a test: two pieces of one node each.
pub fn in_second_round<R: Abort, T: RoundTest<R>>(rt: &R, alloc: Global, test: &T)
    requires { T.ready }
{
    let instance = instance_of(rt, alloc, GAP);
    let plan = Plan::new(2, 3, 1).expect(rt, "a plan");
    let start = Standing::start(alloc, &instance).expect(rt, "memory");
    let first = after_round(rt, alloc, &instance, &plan, start);
    lend_next_round(rt, alloc, &instance, &plan, first, test);
}

/// Lends the third round of `GAP` to a test: three pieces of one node each.
pub fn in_third_round<R: Abort, T: RoundTest<R>>(rt: &R, alloc: Global, test: &T)
    requires { T.ready }
{
    let instance = instance_of(rt, alloc, GAP);
    let plan = Plan::new(3, 3, 1).expect(rt, "a plan");
    let start = Standing::start(alloc, &instance).expect(rt, "memory");
    let first = after_round(rt, alloc, &instance, &plan, start);
    let second = after_round(rt, alloc, &instance, &plan, first);
    lend_next_round(rt, alloc, &instance, &plan, second, test);
}

/// Asserts the nodes of the only piece of a round.
fn assert_piece(rt: &impl Abort, alloc: Global, pieces: &[Piece], wanted: &str) {
    assert!(rt; pieces.len() == 1);
    let told = told_of_nodes(rt, alloc, pieces[0].nodes.as_slice());
    assert_told(rt, "a piece", told.as_str(), wanted);
}

/// Asserts the nodes that the second round of `SHORT_JOBS` searches, in an order.
fn assert_order(rt: &impl Abort, alloc: Global, order: Order, wanted: &str) {
    let instance = instance_of(rt, alloc, SHORT_JOBS);
    let plan = Plan::ordered(2, 2, 2, order).expect(rt, "a plan");
    let start = Standing::start(alloc, &instance).expect(rt, "memory");
    let first = after_round(rt, alloc, &instance, &plan, start);
    let round = next_round(rt, alloc, &instance, &plan, first);
    assert_piece(rt, alloc, round.pieces.as_slice(), wanted);
}

#[test]
fn open_nodes_as_they_are_kept_and_by_bound(rt: HostRuntime) {
    assert_order(&rt, rt.alloc(), Order::Kept, "21:10 3:9 ");
    assert_order(&rt, rt.alloc(), Order::Bound, "3:9 21:10 ");
}
