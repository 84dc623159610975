// Places the operations of a word, in the order of its jobs. For each job the index of its next leg is kept (its first
// unplaced operation, or the end of its route), since the legs of a route are side by side in memory.
ghost use Rattle.std.specs.Prelude.{◌≡◌, ◌≤◌, length, take};
ghost use Rattle.shop_model.specs.Word.{IsWord, none_placed, placing};
ghost use Rattle.shop_states.specs.inner.PlacedNexts.{IsPlacedAt};

use shop_lanes::StateLanes;
use shop_layout::LaidOut;

/// Writes the placement of the empty word into `next_legs`, `ready` and `free`: each job is at the first leg of its
/// route, ready at its release.
pub(crate) fn place_none<L: StateLanes>(
    laid_out: &LaidOut<L>,
    next_legs: &mut [u32],
    ready: &mut [u64],
    free: &mut [u64],
)
    requires next { length next_legs.old ≡ length laid_out.now.shop.jobs }
    requires ready { length ready.old ≡ length laid_out.now.shop.jobs }
    requires free { length free.old ≡ laid_out.now.shop.machines }
    ensures { IsPlacedAt laid_out.now.shop (none_placed laid_out.now.shop) laid_out.now.layout
        next_legs.new ready.new free.new }
{
    let instance = laid_out.instance();
    // called for its contract: the layout has the routes of this instance
    let _ = laid_out.grid();
    let mut first: usize = 0;
    for job in 0..next_legs.len() {
        next_legs[job] = first as u32;
        ready[job] = instance.release(job);
        first += instance.route(job).len() + 1;
    }
    // each machine is free from time 0 on
    free.fill(0);
}

/// Places the operations of the word `path` from entry `from` on. The operations of earlier entries are placed already.
pub(crate) fn place_from<L: StateLanes>(
    laid_out: &LaidOut<L>,
    next_legs: &mut [u32],
    ready: &mut [u64],
    free: &mut [u64],
    path: &[u16],
    from: usize,
)
    requires before { IsPlacedAt laid_out.now.shop (placing laid_out.now.shop (take from path.now))
        laid_out.now.layout next_legs.old ready.old free.old }
    requires within { from ≤ length path.now }
    requires word { IsWord laid_out.now.shop path.now }
    ensures { IsPlacedAt laid_out.now.shop (placing laid_out.now.shop path.now) laid_out.now.layout
        next_legs.new ready.new free.new }
{
    let routes = laid_out.grid().routes();
    for index in from..path.len() {
        let job = path[index] as usize;
        let leg = routes.leg(next_legs[job] as usize);
        let machine = leg.machine as usize;
        let end = ready[job].max(free[machine]) + leg.time;
        next_legs[job] += 1;
        ready[job] = end;
        free[machine] = end;
    }
}
