// Makes the children of a node.
ghost use Rattle.std.specs.{Prelude.{◌≡◌, [], ◌∷◌, ◌++◌, IfOk}, Arc.arc_slice_items};
ghost use Rattle.shop_model.specs.Word.{IsWord, IsFull};
ghost use Rattle.shop_bound.specs.Bound.{lb};
ghost use Rattle.shop_nodes.specs.{Branching.branch, Nodes.{IsNode, AreNodes, words_of, AreBetterChildren}};
ghost use Rattle.shop_nodes.specs.inner.Indices.{IsIndexFor};

use crate::conflicts::conflict;
use crate::nodes::Node;
use shop_model::{Instance, SharedWord, Word};
use std::alloc::{AllocError as NoMemory, Global};
use std::sync::ArcSlice;

/// Copies the jobs of `word` into a path that the children's words share. Fails with `NoMemory` if memory runs out.
fn shared_path(
    alloc: Global,
    instance: &Instance,
    word: &Word,
) -> Result<ArcSlice<u16, Global>, NoMemory>
    requires { IsWord instance.now word.now }
    ensures { IfOk result (λ p. arc_slice_items p ≡ word.now) }
{
    instance.keeps_limits();
    let mut path = Vec::new(alloc);
    word.write_to(&mut path)?;
    ArcSlice::from_slice(alloc, path.as_slice())
}

/// Makes the node whose word is `path` followed by `job`, with its bound. Fails with `NoMemory` if memory runs out.
fn child_along(
    alloc: Global,
    instance: &Instance,
    path: &ArcSlice<u16, Global>,
    job: usize,
) -> Result<Node, NoMemory>
    requires { IsWord instance.now (arc_slice_items path.now ++ job ∷ []) }
    ensures word { IfOk result (λ n. n.word ≡ arc_slice_items path.now ++ job ∷ []) }
    ensures bound { IfOk result (λ n. n.bound ≡ lb instance.now n.word) }
{
    instance.keeps_limits();
    let depth = path.len() as u32;
    let word = SharedWord::along(path, depth, job as u16)?;
    Node::new(alloc, instance, Word::of_shared(word))
}

/// Returns the index of the first of `nodes` with a bound of at least `bound`, or their number if there is none.
fn index_for(bound: u64, nodes: &[Node]) -> usize
    ensures { IsIndexFor bound nodes.now result }
{
    for index in 0..nodes.len() {
        if bound <= nodes[index].bound {
            return index;
        }
    }
    nodes.len()
}

/// Lists the children of a node whose word isn't full, by bound, then by job: the word followed by each job of its
/// conflict set. For each schedule under the word, some child has a schedule under it that ends no later. Fails with
/// `NoMemory` if memory runs out. For library callers and tests: the program doesn't use `children`.
pub fn children(alloc: Global, instance: &Instance, node: &Node) -> Result<Vec<Node>, NoMemory>
    requires node { IsNode instance.now node.now }
    requires open { IsFull instance.now node.now.word → ⊥ }
    ensures branch { IfOk result (λ v. words_of v.items ≡ branch instance.now node.now.word) }
    ensures nodes { IfOk result (λ v. AreNodes instance.now v.items) }
    ensures better { IfOk result (λ v. AreBetterChildren instance.now node.now v.items) }
{
    let mut jobs = conflict(alloc, instance, &node.word)?;
    let path = shared_path(alloc, instance, &node.word)?;
    let mut children = Vec::with_capacity(alloc, jobs.len())?;
    // Inserts the last job first, so that of equal bounds the lower job comes first.
    while let Some(job) = jobs.pop() {
        let child = child_along(alloc, instance, &path, job)?;
        let index = index_for(child.bound, children.as_slice());
        children.insert(index, child)?;
    }
    Ok(children)
}
