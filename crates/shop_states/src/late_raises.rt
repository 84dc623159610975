// Raises heads of later operations on the routes of one machine's operations, as if that machine were free late, and
// notes how far.
ghost use Rattle.std.specs.Prelude.{◌+◌, ◌≤◌, ◌<◌, [], slice_index};
ghost use Rattle.shop_states.specs.inner.{LaneRaises.raises_in, LaidLanes.rows_in, RaiseCalls.CanNote};
ghost use Rattle.shop_states.specs.inner.Raises.{AsksNext, IsPosition, IsRaisable};
ghost use Rattle.shop_states.specs.inner.Siblings.{CanRaiseLate, HasRaisedBehind, HasRaisedLate};

use crate::dispatches::marks_end;
use crate::lane_raises::{LaneRaise, see};
use crate::machine_sets::MachineSet;
use crate::raises::raise_route;
use shop_lanes::StateLanes;
use shop_layout::Routes;

/// When the operations of some candidates, all on one machine, end if each goes first: `end` is the latest end, `job`
/// has that operation, and `second` is the latest end of the other jobs, or 0 if there are none. Ends are in lanes.
#[derive(Clone, Copy)]
pub(crate) struct Latest {
    pub job: usize,
    pub end: u64,
    pub second: u64,
}

/// The machine of a conflict set: all candidates wait on it, and whichever goes first delays the other operations
/// there. It has blocks `from` up to `behind` (excluded). The candidates' operation that ends last is at position
/// `last`, and ends at `latest.end`.
#[derive(Clone, Copy)]
pub(crate) struct LateMachine {
    pub from: usize,
    pub behind: usize,
    pub last: usize,
    pub latest: Latest,
}

/// Raises the heads after the operation at `position` on its route, as far as they are too early if that operation
/// begins at `free`. Notes how far these heads rose, see `see`. The operation's own head stays.
#[inline(always)]
fn raise_behind<L: StateLanes, const NUMBERS: usize>(
    lanes: &mut L,
    raises: &mut [LaneRaise<L::Number>],
    raised: &mut MachineSet,
    routes: &Routes,
    position: usize,
    free: u64,
)
    requires waits { 0 < slice_index (L.heads lanes.old) position }
    requires ends { free + slice_index routes.now.times position ≤ L.GREATEST }
    requires can { IsRaisable L.GREATEST routes.now [] (rows_in L.StateLanes routes.now lanes.old)
        (IsPosition position) (AsksNext routes.now (λ p. free)) }
    requires note { CanNote L.value NUMBERS routes.now.machines raises.old raised.old }
    ensures { HasRaisedBehind L.GREATEST routes.now (IsPosition position) (λ p. free)
        (rows_in L.StateLanes routes.now lanes.old) (rows_in L.StateLanes routes.now lanes.new)
        (raises_in L.value raises.old) (raises_in L.value raises.new) raised.new }
{
    let ready = free + routes.time(position);
    let leg = routes.leg(routes.behind(position));
    let first = leg.position as usize;
    let head = lanes.head_or_greatest(first);
    if ready <= head {
        return;
    }
    see::<L, NUMBERS>(raises, raised, leg.machine, head, ready);
    raise_route::<L, NUMBERS>(lanes, raises, raised, routes, first, ready);
}

/// Raises the heads on the routes after each operation that waits on a late machine, as if the operation began as late
/// as a candidate can delay it: at `late.latest.end` or, for the operation at `late.last`, at `late.latest.second`.
/// Notes how far heads rose. Then no head of a child is higher, except on that machine, on which heads rise only after
/// another operation of their route. Marks up to eight blocks at once, and visits only what waits there and can begin
/// before the latest end: after all others, and after a marked head that rose before its turn, heads on routes are late
/// enough.
pub(crate) fn raise_late<L: StateLanes, const NUMBERS: usize>(
    lanes: &mut L,
    raises: &mut [LaneRaise<L::Number>],
    raised: &mut MachineSet,
    routes: &Routes,
    late: LateMachine,
)
    requires can { CanRaiseLate L.GREATEST routes.now (rows_in L.StateLanes routes.now lanes.old) late }
    requires note { CanNote L.value NUMBERS routes.now.machines raises.old raised.old }
    ensures { HasRaisedLate L.GREATEST routes.now late (rows_in L.StateLanes routes.now lanes.old)
        (rows_in L.StateLanes routes.now lanes.new) (raises_in L.value raises.old) (raises_in L.value raises.new)
        raised.new }
{
    let mut from = late.from;
    while from < late.behind {
        let to = marks_end(from, late.behind);
        let mut todo = lanes.below(from, to, late.latest.end);
        while let Some(position) = todo.pop_first() {
            // the candidates' operation that ends last doesn't delay itself
            let free = if position == late.last {
                late.latest.second
            } else {
                late.latest.end
            };
            raise_behind::<L, NUMBERS>(lanes, raises, raised, routes, position, free);
        }
        from = to;
    }
}
