// Chooses the order in which a round's searches bound machines.
ghost use Rattle.std.specs.Prelude.{◌≡◌, IfOk, IfSome, length, vec_len};
ghost use Rattle.shop_model.specs.Word.{IsWord};
ghost use Rattle.shop_runs.specs.Nodes.{ArePieces};

use shop_bound::machine_bounds;
use shop_layout::Layout;
use shop_model::{Instance, Word};
use shop_nodes::Piece;
use std::alloc::{AllocError as NoMemory, Global};

/// Instances of more operations keep the order of their machines. On longer machines most children are settled without
/// a trial, so the order matters less, and bounding words takes longer.
const MOST_OPERATIONS: usize = 400;

/// The most words whose bounds make the order of machines. More words hardly change it.
const MOST_WORDS: usize = 4;

/// How many rounds are done before the one whose layout is made anew: its words rank machines better than the empty
/// word, the only one of the first round.
const ROUND_TO_REORDER: u64 = 1;

/// Adds the one-machine bound of each machine after `word` to the machine's number in `keys`. No sum gets near 2^64,
/// and none has to be right. Fails with `NoMemory` if memory runs out.
fn add_bounds(
    alloc: Global,
    instance: &Instance,
    word: &Word,
    keys: &mut [u64],
) -> Result<(), NoMemory>
    requires word { IsWord instance.now word.now }
    requires machines { length keys.old ≡ instance.now.machines }
    ensures { length keys.new ≡ length keys.old }
{
    let bounds = machine_bounds(alloc, instance, word)?;
    for machine in 0..keys.len() {
        keys[machine] = keys[machine].saturating_add(bounds[machine]);
    }
    Ok(())
}

/// Returns for each machine the sum of its one-machine bounds after some words of `pieces`, taken evenly. No sum
/// has to be right. Fails with `NoMemory` if memory runs out.
fn machine_keys(alloc: Global, instance: &Instance, pieces: &[Piece]) -> Result<Vec<u64>, NoMemory>
    requires { ArePieces instance.now pieces.now }
    ensures { IfOk result (λ v. vec_len v ≡ instance.now.machines) }
{
    let mut keys = vec![in alloc; 0; instance.machines()]?;
    let mut count = 0_usize;
    for piece in pieces {
        count = count.saturating_add(piece.nodes.len());
    }
    let apart = count / MOST_WORDS + 1;
    let mut index = 0_usize;
    for piece in pieces {
        for node in &piece.nodes {
            if index % apart == 0 {
                add_bounds(alloc, instance, &node.word, keys.as_mut_slice())?;
            }
            index = index.saturating_add(1);
        }
    }
    Ok(keys)
}

/// Returns the layout of a round with these `pieces`, before which `rounds` rounds were done: the one in `kept`, or a
/// new one if there is none. Up to `MOST_OPERATIONS` operations machines are ordered, and once more after the first
/// round: a child is closed as soon as one machine's bound is too high, so the machines with the greatest bounds after
/// words of `pieces` come first. The empty word, the only one of a run's first round, ranks machines less well than the
/// words of the second. Fails with `NoMemory` if memory runs out.
pub(crate) fn layout_for<'r>(
    alloc: Global,
    instance: &'r Instance,
    kept: Option<Layout<'r>>,
    rounds: u64,
    pieces: &[Piece],
) -> Result<Layout<'r>, NoMemory>
    requires kept { IfSome kept (λ l. l.asked ≡ instance.now) }
    requires pieces { ArePieces instance.now pieces.now }
    ensures { IfOk result (λ l. l.asked ≡ instance.now) }
{
    let is_ordered = instance.operations() <= MOST_OPERATIONS;
    if let Some(layout) = kept {
        if !is_ordered || rounds != ROUND_TO_REORDER {
            return Ok(layout);
        }
    }
    if !is_ordered {
        return Layout::of(alloc, instance);
    }
    let keys = machine_keys(alloc, instance, pieces)?;
    Layout::ordered(alloc, instance, keys.as_slice())
}
