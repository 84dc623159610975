// Rounds cut from a standing, for library callers: a run cuts a store that it keeps from round to round.
ghost use Rattle.std.specs.Prelude.{◌<◌, IfOk, length};

use crate::plans::Plan;
use crate::rounds::Round;
use crate::runs::OpenRun;
use crate::standings::Standing;
use shop_model::Instance;
use std::alloc::{AllocError as NoMemory, Global};

impl<'r> Round<'r> {
    ghost use Rattle.shop_runs.specs.Standings.{IsStandingOf, IsCutOf, CutCovers};

    /// Cuts the open nodes of `standing`, in the plan's order, into at most 256 pieces, and keeps the other nodes as
    /// the round's rest. Fails with `NoMemory` if memory runs out. For library callers: the program doesn't use `cut`.
    pub fn cut(
        alloc: Global,
        instance: &'r Instance,
        plan: &Plan,
        standing: Standing,
    ) -> Result<Round<'r>, NoMemory>
        requires open { 0 < length standing.open.items }
        requires rounds { standing.rounds < plan.now.rounds }
        requires standing { IsStandingOf instance.now standing }
        ensures cut { IfOk result (λ r. IsCutOf instance.now plan.now standing r) }
        ensures covers { IfOk result (λ r. CutCovers instance.now standing r) }
    {
        let mut open_run = OpenRun::of(alloc, instance, plan.order, standing)?;
        let mut round = open_run.cut(alloc, instance, None, plan)?;
        let rest = open_run.open.take_all(alloc)?;
        round.rest = rest;
        Ok(round)
    }
}
