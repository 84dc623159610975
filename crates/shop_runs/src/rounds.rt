// Rounds, and how the first open nodes of a store are cut into pieces.
ghost use Rattle.std.specs.Prelude.{◌≡◌, ◌*◌, ◌≤◌, ◌<◌, [], length, drop, true, IfOk, OnOk};
ghost use Rattle.shop_nodes.specs.Nodes.{AreNodes};
ghost use Rattle.shop_runs.specs.{Limits.IsCountWithin, Round.cut_into, Nodes.{numbered, told_of, ArePieces}};
ghost use Rattle.shop_runs.specs.{Laws.IsRound, inner.NodeLists.nodes_in, inner.Stores.{open_list, order_of}};
ghost use Rattle.shop_runs.specs.declared.plans.TheConstants.{MAX_BUDGET, MAX_PIECES, MAX_ROUNDS};

use crate::open_nodes::OpenNodes;
use crate::plans::MAX_PIECES;
use shop_layout::Layout;
use shop_model::{Instance, Word};
use shop_nodes::{Node, Piece};
use std::alloc::{AllocError as NoMemory, Global};

/// A round. `word` is the best word at its start, and `best` the makespan of that word. `bound`, the opening bound, is
/// at most `best` and the bound of each node of the round. Each piece has a budget of `budget` nodes. `rest` holds the
/// open nodes in no piece. `rounds` and `nodes` were counted before the round. All who search pieces share `layout`.
#[derive(Drop)]
pub struct Round<'r> {
    pub instance: &'r Instance,
    pub word: Word,
    pub best: u64,
    pub bound: u64,
    pub budget: u64,
    pub pieces: Vec<Piece>,
    pub rest: Vec<Node>,
    pub rounds: u64,
    pub nodes: u64,
    pub(crate) layout: Layout<'r>,
    pub ghost layout_of: { layout.asked ≡ instance.now },
    pub ghost numbered: { numbered 0 pieces.items ≡ true },
    pub ghost nodes_of_pieces: { ArePieces instance.now pieces.items },
    pub ghost nodes_of_rest: { AreNodes instance.now rest.items },
    pub ghost few_pieces: { length pieces.items ≤ MAX_PIECES },
    pub ghost small_budget: { budget ≤ MAX_BUDGET },
    pub ghost rounds_left: { rounds < MAX_ROUNDS },
    pub ghost counted: { IsCountWithin rounds nodes },
    pub ghost is_round: { IsRound (told_of instance.now word best bound budget pieces.items
        rest.items rounds nodes) },
}

impl<'r> Round<'r> {
    /// Returns the layout of the instance, which all who search the pieces share.
    pub fn layout(&self) -> &Layout<'r>
        ensures { result.now.asked ≡ self.now.instance.now }
    {
        &self.layout
    }
}

/// Returns an empty list: that of the last piece of `spare`, which keeps its memory, or a new one if there is none.
fn spare_list(alloc: Global, spare: &mut Vec<Piece>) -> Vec<Node>
    ensures { result.items ≡ [] }
{
    match spare.pop() {
        Some(piece) => {
            let mut nodes = piece.nodes;
            nodes.clear();
            nodes
        }
        None => Vec::new(alloc),
    }
}

/// Cuts the first nodes of `store` off into at most 256 pieces of `size` nodes; the last piece may be shorter. The
/// pieces take over the lists of those in `spare`. Fails with `NoMemory` if memory runs out.
pub(crate) fn cut_pieces(
    alloc: Global,
    store: &mut OpenNodes,
    size: usize,
    mut spare: Vec<Piece>,
) -> Result<Vec<Piece>, NoMemory>
    requires { 0 < size }
    ensures nodes { IfOk result (λ v. nodes_in v.items ≡ cut_into MAX_PIECES size (open_list store.old)) }
    ensures numbers { IfOk result (λ v. numbered 0 v.items ≡ true) }
    ensures left { OnOk result (open_list store.new ≡ drop (MAX_PIECES * size) (open_list store.old)) }
    ensures order { OnOk result (order_of store.new ≡ order_of store.old) }
{
    let mut pieces = Vec::with_capacity(alloc, spare.len())?;
    for number in 0..MAX_PIECES {
        let mut nodes = spare_list(alloc, &mut spare);
        store.take(size, &mut nodes)?;
        if nodes.is_empty() {
            break;
        }
        pieces.push(Piece::new(number, nodes))?;
    }
    Ok(pieces)
}
