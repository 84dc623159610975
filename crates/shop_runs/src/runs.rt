// Runs, which search round after round until no node is open or the plan's rounds are done.
ghost use Rattle.std.specs.Prelude.{◌≡◌, ◌^◌, ◌<◌, [], IfOk, IfSome, OnOk};
ghost use Rattle.shop_runs.specs.{Limits.IsCountWithin, Runs.{SaysAnswer, IsTrusted}};

use crate::crews::Crew;
use crate::distant_nodes::DistantNodes;
use crate::machine_orders::layout_for;
use crate::open_nodes::OpenNodes;
use crate::outcomes::{RoundResult, outcome_of};
use crate::plans::{MAX_PIECES, Order, Plan};
use crate::rounds::{Round, cut_pieces};
use crate::standings::Standing;
use shop_layout::Layout;
use shop_model::{Instance, Table, Word, place};
use shop_nodes::Piece;
use std::alloc::{AllocError as NoMemory, Global};
use std::mem;

/// A run between two rounds: the best word and its makespan, the rounds done, the nodes counted, and the store of the
/// open nodes, in the order in which the next round takes them. `distant` counts the open nodes beyond those of the
/// store, which no round that is left can take. `spare` has the pieces of the last round, whose lists the next round
/// reuses.
#[derive(Drop)]
pub(crate) struct OpenRun {
    pub(crate) word: Word,
    pub(crate) makespan: u64,
    pub(crate) rounds: u64,
    pub(crate) nodes: u64,
    pub(crate) open: OpenNodes,
    pub(crate) distant: DistantNodes,
    pub(crate) spare: Vec<Piece>,
    pub(crate) ghost within: { IsCountWithin rounds nodes },
}

impl OpenRun {
    ghost use Rattle.shop_runs.specs.{Standings.{IsStandingOf, stands}, Plans.planned};
    ghost use Rattle.shop_runs.specs.inner.Searches.{IsSearchAt, IsSearchOf, IsFront, IsRunAt, IsRunOf};
    ghost use Rattle.shop_runs.specs.{Laws.IsStanding, Round.{Stand, round as next_round}};
    ghost use Rattle.shop_runs.specs.{Answers.{answer as answer_of_plan}, inner.Distant.HaveCounts};

    /// Makes the run at `standing`, whose open nodes it stores in `order`. Fails with `NoMemory` if memory runs out.
    pub(crate) fn of(
        alloc: Global,
        instance: &Instance,
        order: Order,
        standing: Standing,
    ) -> Result<OpenRun, NoMemory>
        requires { IsStandingOf instance.now standing }
        ensures at { IfOk result (λ t. IsSearchAt instance.now order (stands standing) t) }
        ensures near { IfOk result (λ t. t.distant.horizon ≡ t.makespan) }
        ensures all { IfOk result (λ t. HaveCounts t.distant.counts.items []) }
    {
        instance.keeps_limits();
        let mut open = OpenNodes::new(alloc, order, standing.makespan, instance.operations());
        let mut distant = DistantNodes::none(alloc, standing.makespan);
        open.put_nodes(
            alloc,
            standing.makespan,
            standing.open.as_slice(),
            &mut distant,
        )?;
        Ok(OpenRun {
            word: standing.word,
            makespan: standing.makespan,
            rounds: standing.rounds,
            nodes: standing.nodes,
            open,
            distant,
            spare: Vec::new(alloc),
        })
    }

    /// Cuts the first open nodes off into at most 256 pieces, which take over the lists of the run's spare ones.
    /// Returns the round of these pieces, without a rest. The run's word moves into the round: until `next` sets it
    /// again, the run has an empty one, and no spare pieces. The other open nodes stay. `layout_for` chooses the
    /// layout; `kept` is the last round's, if there was one. Fails with `NoMemory` if memory runs out; the run is then
    /// of no use.
    pub(crate) fn cut<'r>(
        &mut self,
        alloc: Global,
        instance: &'r Instance,
        kept: Option<Layout<'r>>,
        plan: &Plan,
    ) -> Result<Round<'r>, NoMemory>
        requires layout { IfSome kept (λ l. l.asked ≡ instance.now) }
        requires rounds { self.old.rounds < plan.now.rounds }
        requires search { IsSearchOf instance.now plan.now.order self.old }
        ensures front { IfOk result (λ r. IsFront instance.now plan.now self.old r self.new.open) }
        ensures makespan { self.new.makespan ≡ self.old.makespan }
        ensures counts { (self.new.rounds ≡ self.old.rounds) × (self.new.nodes ≡ self.old.nodes) }
        ensures distant { self.new.distant ≡ self.old.distant }
    {
        let bound = self.open.least_bound(self.makespan);
        let word = mem::replace(&mut self.word, Word::of_jobs(Vec::new(alloc)));
        let spare = mem::replace(&mut self.spare, Vec::new(alloc));
        let pieces = cut_pieces(alloc, &mut self.open, plan.piece, spare)?;
        let layout = layout_for(alloc, instance, kept, self.rounds, pieces.as_slice())?;
        let round = Round {
            instance,
            word,
            best: self.makespan,
            bound,
            budget: plan.budget,
            pieces,
            rest: Vec::new(alloc),
            rounds: self.rounds,
            nodes: self.nodes,
            layout,
        };
        Ok(round)
    }

    /// Searches one more round. Returns the round's layout, which `layout_for` chose; `kept` is the last round's, if
    /// there was one. A row of stacks by bound keeps at least as many nodes as the rounds left can take and one more,
    /// which has the least bound at the end. Fails with `NoMemory` if memory runs out; the run is then of no use.
    fn next<'r, R, C: Crew<R>>(
        &mut self,
        rt: &R,
        alloc: Global,
        instance: &'r Instance,
        plan: &Plan,
        kept: Option<Layout<'r>>,
        crew: &mut C,
    ) -> Result<Layout<'r>, NoMemory>
        requires ready { C.ready }
        requires layout { IfSome kept (λ l. l.asked ≡ instance.now) }
        requires rounds { self.old.rounds < plan.now.rounds }
        requires search { IsRunOf instance.now (planned plan.now) self.old }
        ensures next { OnOk result ((s : Stand) → IsRunAt instance.now (planned plan.now) s self.old
            → IsStanding instance.now s
            → IsRunAt instance.now (planned plan.now) (next_round instance.now (planned plan.now) s) self.new) }
        ensures layout { IfOk result (λ l. l.asked ≡ instance.now) }
    {
        instance.keeps_limits();
        let rounds_left = (plan.rounds - self.rounds - 1) as usize;
        let most = rounds_left * (MAX_PIECES * plan.piece) + 1;
        let round = self.cut(alloc, instance, kept, plan)?;
        let entries = crew.search(rt, alloc, &round)?;
        let RoundResult {
            found,
            makespan,
            left,
            nodes,
        } = outcome_of(alloc, &round, entries)?;
        self.open.keep_below(self.makespan, makespan)?;
        self.distant.keep_below(makespan);
        self.open
            .put_left(alloc, makespan, left, &mut self.distant)?;
        self.open.retire(most, &mut self.distant)?;
        self.word = found.unwrap_or(round.word);
        self.makespan = makespan;
        self.rounds = round.rounds + 1;
        self.nodes = nodes;
        self.spare = round.pieces;
        Ok(round.layout)
    }

    /// Starts a run, and searches rounds until no node is open or the plan's rounds are done. Each round hands its
    /// layout to the next. Fails with `NoMemory` if memory runs out.
    fn at_end<R, C: Crew<R>>(
        rt: &R,
        alloc: Global,
        instance: &Instance,
        plan: &Plan,
        crew: &mut C,
    ) -> Result<OpenRun, NoMemory>
        requires { C.ready }
        ensures { IfOk result (λ t. IsRunAt instance.now (planned plan.now)
            (answer_of_plan instance.now (planned plan.now)) t) }
    {
        let start = Standing::start(alloc, instance)?;
        let mut run = OpenRun::of(alloc, instance, plan.order, start)?;
        let mut layout = None;
        for done in 0..plan.rounds {
            if run.open.is_empty() {
                return Ok(run);
            }
            layout = Some(run.next(rt, alloc, instance, plan, layout, crew)?);
        }
        Ok(run)
    }
}

/// The answer of a run: the best word with its schedule and makespan, the bound before which no feasible schedule ends,
/// the number of open nodes, the rounds done and the nodes counted. If no node is open, the makespan is least. Dropping
/// the answer also drops the stored open nodes, one by one.
#[derive(Drop)]
pub struct Answer {
    pub word: Word,
    pub table: Table,
    pub makespan: u64,
    pub bound: u64,
    pub open_nodes: usize,
    pub rounds: u64,
    pub nodes: u64,
    /// kept so that a caller may leak it, if freeing each node would take time for nothing
    store: OpenNodes,
}

/// Searches `instance` by `plan`, with any crew. The answer's schedule is feasible and ends at the makespan, and no
/// feasible schedule ends before the bound. If no node is open, the makespan is least. Fails with `NoMemory` if memory
/// runs out.
pub fn run<R, C: Crew<R>>(
    rt: &R,
    alloc: Global,
    instance: &Instance,
    plan: &Plan,
    crew: &mut C,
) -> Result<Answer, NoMemory>
    requires { C.ready }
    ensures says { IfOk result (λ a. SaysAnswer instance.now plan.now a) }
    ensures trust { IfOk result (λ a. IsTrusted instance.now a) }
    ensures nodes { IfOk result (λ a. a.nodes < 2 ^ 50) }
{
    instance.keeps_limits();
    let end = OpenRun::at_end(rt, alloc, instance, plan, crew)?;
    let bound = end.open.least_bound(end.makespan);
    let stored = end.open.count()?;
    let open_nodes = stored + end.distant.count();
    let table = place(alloc, instance, &end.word)?;
    Ok(Answer {
        word: end.word,
        table,
        makespan: end.makespan,
        bound,
        open_nodes,
        rounds: end.rounds,
        nodes: end.nodes,
        store: end.open,
    })
}
