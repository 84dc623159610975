// `LaneRows`: the heads, times and tails of operations by position. `HeadRange`: a range of heads.
ghost use Rattle.std.specs.Prelude.{◌≡◌, ◌*◌, ◌≤◌, length};

/// The head, the time and the tail of the operation at each position, in numbers of one width. The rows are known to be
/// equally long, so that a pass over them tests no index.
#[derive(Drop)]
pub struct LaneRows<'a, N> {
    pub heads: &'a [N],
    pub times: &'a [N],
    pub tails: &'a [N],
    pub ghost times_are_as_many: { length times.now ≡ length heads.now },
    pub ghost tails_are_as_many: { length tails.now ≡ length heads.now },
}

/// The heads above `above` and at most `upto`.
#[derive(Clone, Copy)]
pub struct HeadRange {
    pub above: u64,
    pub upto: u64,
}

impl<'a, N> LaneRows<'a, N> {
    ghost use Rattle.shop_lanes.specs.Rows.{AreCutFrom};

    /// The rows of blocks `from` up to `to` (excluded).
    #[inline(always)]
    pub fn blocks(&self, from: usize, to: usize) -> LaneRows<'a, N>
        requires ordered { from ≤ to }
        requires within { 8 * to ≤ length self.now.heads.now }
        ensures { AreCutFrom self.now from to result }
    {
        let first = 8 * from;
        let end = 8 * to;
        LaneRows {
            heads: &self.heads[first..end],
            times: &self.times[first..end],
            tails: &self.tails[first..end],
        }
    }
}
