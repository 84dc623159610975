// Open nodes that a run only counts, since no round that it has left can take them.
use std::alloc::{AllocError as NoMemory, Global};

/// The open nodes with bounds from `horizon` on, of which `counts[b]` have bound b. They are only counted: the open
/// nodes below the horizon are enough for all rounds that a run has left, so none from the horizon on is ever taken.
#[derive(Drop)]
pub(crate) struct DistantNodes {
    pub(crate) horizon: u64,
    pub(crate) counts: Vec<usize>,
}

impl DistantNodes {
    ghost use Rattle.std.specs.Prelude.{◌≡◌, [], List, take, length, OnOk};
    ghost use Rattle.shop_nodes.specs.declared.nodes.Node.{Node};
    ghost use Rattle.shop_runs.specs.inner.Distant.{HaveCounts, HaveFewCounts, IsCountable, IsAdded};

    /// Makes the record of no nodes from `horizon` on. Takes no memory.
    pub(crate) fn none(alloc: Global, horizon: u64) -> DistantNodes
        ensures horizon { result.horizon ≡ horizon }
        ensures counts { result.counts.items ≡ [] }
    {
        DistantNodes {
            horizon,
            counts: Vec::new(alloc),
        }
    }

    /// Counts `count` nodes more of bound `bound`, which are then fewer than 2^64. Fails with `NoMemory` if memory runs
    /// out.
    pub(crate) fn add(&mut self, bound: u64, count: usize) -> Result<(), NoMemory>
        requires { IsCountable bound count self.old.counts.items }
        ensures horizon { self.new.horizon ≡ self.old.horizon }
        ensures added { OnOk result (IsAdded bound count self.old.counts.items self.new.counts.items) }
    {
        let index = bound as usize;
        while self.counts.len() <= index {
            self.counts.push(0)?;
        }
        self.counts[index] += count;
        Ok(())
    }

    /// Drops the nodes whose bounds are at least `makespan`.
    pub(crate) fn keep_below(&mut self, makespan: u64)
        ensures horizon { self.new.horizon ≡ self.old.horizon }
        ensures counts { self.new.counts.items ≡ take makespan self.old.counts.items }
    {
        self.counts.truncate(makespan as usize);
    }

    /// Returns how many nodes are counted: fewer than 2^64.
    pub(crate) fn count(&self) -> usize
        requires { HaveFewCounts self.now.counts.items }
        ensures { (nodes : List Node) → HaveCounts self.now.counts.items nodes → result ≡ length nodes }
    {
        let mut all = 0;
        for &count in &self.counts {
            all += count;
        }
        all
    }
}
