// The standing of a search between two rounds, and the one with which a search begins.
ghost use Rattle.shop_runs.specs.Limits.{IsCountWithin};

use shop_bound::lower_bound;
use shop_model::{Instance, Word, start_word};
use shop_nodes::Node;
use std::alloc::{AllocError as NoMemory, Global};

/// A search between two rounds: the best word and its makespan, the open nodes, the rounds done and the nodes counted.
#[derive(Drop)]
pub struct Standing {
    pub word: Word,
    pub makespan: u64,
    pub open: Vec<Node>,
    pub rounds: u64,
    pub nodes: u64,
    pub ghost within: { IsCountWithin rounds nodes },
}

impl Standing {
    ghost use Rattle.std.specs.Prelude.{IfOk};
    ghost use Rattle.shop_runs.specs.{Round.opening, Laws.StandsCovering, Standings.{stands, StandsAt, IsStandingOf}};

    /// Makes the standing with which a search begins: the best word is the start word, and the empty word is open if
    /// its bound is below the start word's makespan. Fails with `NoMemory` if memory runs out.
    pub fn start(alloc: Global, instance: &Instance) -> Result<Standing, NoMemory>
        ensures at { IfOk result (λ s. StandsAt instance.now (opening instance.now) s) }
        ensures standing { IfOk result (λ s. IsStandingOf instance.now s) }
        ensures covers { IfOk result (λ s. StandsCovering instance.now (stands s)) }
    {
        let word = start_word(alloc, instance)?;
        let makespan = lower_bound(alloc, instance, &word)?;
        let root = Node::new(alloc, instance, Word::of_jobs(Vec::new(alloc)))?;
        let mut open = Vec::new(alloc);
        if root.bound < makespan {
            open.push(root)?;
        }
        Ok(Standing {
            word,
            makespan,
            open,
            rounds: 0,
            nodes: 0,
        })
    }
}
