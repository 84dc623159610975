// Open nodes for the order `Bound` if bounds are small: a bucket queue, a row with a stack of words for each bound.
ghost use Rattle.std.specs.Prelude.{◌≡◌, ◌==◌, ◌^◌, ◌<◌, ◌≤◌, ◌∷◌, [], length, vec_len, take, drop};
ghost use Rattle.std.specs.Prelude.{IfOk, IfSome, OnOk, OnErr};
ghost use Rattle.shop_nodes.specs.{Branching.insert_by, inner.HeldNodes.nodes_below};
ghost use Rattle.shop_runs.specs.inner.BoundRows.{IsBehind, IsFirstFrom, StaysEmpty, TakesTop};
ghost use Rattle.shop_runs.specs.inner.{Distant.{AreAdded, AreCountable, IsRetired}, NodeLists.least_of_bounds};
ghost use Rattle.shop_runs.specs.inner.Stacks.{words_at, nodes_in_row, IsNextOf};

use crate::distant_nodes::DistantNodes;
use crate::stacks::Stack;
use shop_model::{SharedWord, Word};
use shop_nodes::{Node, SharedNode};
use std::alloc::{AllocError as NoMemory, Global};
use std::marker::Model;

/// A bucket of a row: the stack of a bound, if there is one. It takes 16 bytes.
type Bucket = Option<Box<Stack>>;

/// Makes a stack of one word, in a box. Fails with `NoMemory` if memory runs out; the word is then lost.
fn boxed(alloc: Global, word: SharedWord) -> Result<Box<Stack>, NoMemory>
    ensures { IfOk result (λ b. words_at (Some b) ≡ word ∷ []) }
{
    Ok(Box::new(alloc, Stack::of(alloc, word))?)
}

/// Puts `word` on top of the stack in a bucket, or makes a stack of `word` if the bucket is empty. Fails with
/// `NoMemory` if memory runs out; the stack has then lost words.
#[inline(always)]
fn push_at(alloc: Global, bucket: &mut Bucket, word: SharedWord) -> Result<(), NoMemory>
    ensures { OnOk result (words_at bucket.new ≡ word ∷ words_at bucket.old) }
{
    match bucket {
        Some(stack) => stack.push(alloc, word),
        None => {
            *bucket = Some(boxed(alloc, word)?);
            Ok(())
        }
    }
}

/// Takes the top word off the stack in a bucket, or returns `None` if there is no stack. Leaves no empty stack: the box
/// is given back with the last word.
fn pop_at(bucket: &mut Bucket) -> Option<SharedWord>
    ensures { TakesTop result bucket.old bucket.new }
{
    let word = match bucket {
        Some(stack) => stack.pop_if_more(),
        None => None,
    };
    if word.is_some() {
        return word;
    }
    let stack = bucket.take()?;
    Some(Box::into_inner(stack).into_last())
}

/// Returns how many words the stack in a bucket holds. Fails with `NoMemory` if they are 2^64 or more.
fn count_at(bucket: &Bucket) -> Result<usize, NoMemory>
    ensures count { IfOk result (λ n. n ≡ length (words_at bucket.now)) }
    ensures too_many { OnErr result (2 ^ 64 ≤ length (words_at bucket.now)) }
{
    match bucket {
        Some(stack) => stack.count(),
        None => Ok(0),
    }
}

/// Returns the first index from `from` on at which there is a stack, or else the number of buckets.
fn first_from(stacks: &[Bucket], from: usize) -> usize
    requires { from ≤ length stacks.now }
    ensures { IsFirstFrom stacks.now from result }
{
    for index in from..stacks.len() {
        if stacks[index].is_some() {
            return index;
        }
    }
    stacks.len()
}

/// Counts the words of the stacks from `first` on until they are at least `most`. Returns the index after the last
/// stack that was counted, or `None` if all of them hold fewer, and how many were counted. Fails with `NoMemory` if a
/// stack holds 2^64 words or more.
fn bucket_behind(
    stacks: &[Bucket],
    first: usize,
    most: usize,
) -> Result<(Option<usize>, usize), NoMemory>
    ensures behind { IfOk result (λ p. IfSome p.0 (IsBehind first most stacks.now)) }
    ensures count { IfOk result (λ p. p.1 ≤ length (nodes_in_row 0 stacks.now)) }
{
    let mut count = 0_usize;
    for index in first..stacks.len() {
        count = count.saturating_add(count_at(&stacks[index])?);
        if most <= count {
            return Ok((Some(index + 1), count));
        }
    }
    Ok((None, count))
}

/// Counts the words of the stacks from `from` on in `distant`. Fails with `NoMemory` if memory runs out.
fn count_from(stacks: &[Bucket], from: usize, distant: &mut DistantNodes) -> Result<(), NoMemory>
    requires { AreCountable (nodes_in_row from (drop from stacks.now)) distant.old }
    ensures horizon { distant.new.horizon ≡ distant.old.horizon }
    ensures added { OnOk result (AreAdded (nodes_in_row from (drop from stacks.now))
        distant.old.counts.items distant.new.counts.items) }
{
    for index in from..stacks.len() {
        distant.add(index as u64, count_at(&stacks[index])?)?;
    }
    Ok(())
}

/// Moves the buckets from `end` on from `stacks` into `spent`, from the last to the first. Fails with `NoMemory` if
/// memory runs out; then some are left.
fn set_aside(stacks: &mut Vec<Bucket>, end: usize, spent: &mut Vec<Bucket>) -> Result<(), NoMemory>
    requires { end ≤ vec_len stacks.old }
    ensures left { stacks.new.items ≡ take (vec_len stacks.new) stacks.old.items }
    ensures long { end ≤ vec_len stacks.new }
    ensures cut { OnOk result (vec_len stacks.new ≡ end) }
{
    while stacks.len() > end {
        if let Some(bucket) = stacks.pop() {
            spent.push(bucket)?;
        }
    }
    Ok(())
}

/// Adds empty buckets until there is one at `index`. Fails with `NoMemory` if memory runs out.
#[tactic(auto, using(crate::proofs::BoundRowLemmas::row_more, crate::proofs::BoundRowLemmas::more_empty))]
fn reach(stacks: &mut Vec<Bucket>, index: usize) -> Result<(), NoMemory>
    ensures reached { OnOk result (index < vec_len stacks.new) }
    ensures len { vec_len stacks.old ≤ vec_len stacks.new }
    ensures nodes { nodes_in_row 0 stacks.new.items ≡ nodes_in_row 0 stacks.old.items }
    ensures empty { StaysEmpty stacks.old.items stacks.new.items }
{
    while stacks.len() <= index {
        stacks.push(None)?;
    }
    Ok(())
}

/// Open nodes by bound: `stacks[b]` has the words of the open nodes of bound b. No node has a bound below `first`. The
/// row ends at the greatest bound that was put and not let go, and takes 16 bytes for each bucket, and some 80 for each
/// stack. Contracts see the list of nodes, from the least bound up.
#[derive(Drop)]
pub(crate) struct BoundRow {
    stacks: Vec<Bucket>,
    first: usize,
    /// how many nodes are put before `retire` counts again
    puts_left: usize,
    /// Stacks that `retire` took out, kept until the makespan falls to the row's length or below. Their words lie all
    /// over the heap: if they were freed at once, each later request of memory would take longer.
    spent: Vec<Bucket>,
}

impl Model for BoundRow {
    ghost use Rattle.shop_runs.specs.{inner.Stacks.nodes_in_row, inner.BoundRows.AreEmptyBelow};
    ghost use Rattle.std.specs.Prelude.{List};
    ghost use Rattle.shop_nodes.specs.declared.nodes.Node.{Node};

    ghost Value = { List Node };

    ghost view = { λ r. nodes_in_row 0 r.stacks.items };

    ghost invariant = { λ r. AreEmptyBelow r.first r.stacks.items };
}

impl BoundRow {
    /// Makes an empty row. Takes no memory.
    pub(crate) fn new(alloc: Global) -> BoundRow
        ensures { result ≡ [] }
    {
        BoundRow {
            stacks: Vec::new(alloc),
            first: 0,
            puts_left: 0,
            spent: Vec::new(alloc),
        }
    }

    /// Puts `node` before all other nodes of its bound. Fails with `NoMemory` if memory runs out.
    #[inline(always)]
    pub(crate) fn put(&mut self, alloc: Global, node: SharedNode) -> Result<(), NoMemory>
        ensures { OnOk result (self.new ≡ insert_by (λ n. n.bound) node self.old) }
    {
        let (word, bound) = node.into_parts();
        let index = bound as usize;
        reach(&mut self.stacks, index)?;
        self.first = self.first.min(index);
        self.puts_left = self.puts_left.saturating_sub(1);
        push_at(alloc, &mut self.stacks[index], word)
    }

    /// Takes the first node of least bound, or returns `None` if no node is open.
    pub(crate) fn pop(&mut self) -> Option<Node>
        ensures { IsNextOf result self.old self.new }
    {
        self.first = first_from(self.stacks.as_slice(), self.first);
        if self.first == self.stacks.len() {
            return None;
        }
        let word = pop_at(&mut self.stacks[self.first])?;
        let word = Word::of_shared(word);
        let bound = self.first as u64;
        Some(Node { word, bound })
    }

    /// Drops the nodes whose bounds are at least `makespan`. If the row is as long as that, also frees the stacks that
    /// `retire` took out: they were cut off at the row's end, so their bounds are no less.
    pub(crate) fn keep_below(&mut self, makespan: u64)
        ensures { self.new ≡ nodes_below makespan self.old }
    {
        if makespan as usize <= self.stacks.len() {
            self.spent.clear();
        }
        self.stacks.truncate(makespan as usize);
        self.first = self.first.min(self.stacks.len());
    }

    /// Keeps the nodes of least bounds, up to the first bound with which they are `most` or more. Counts the others in
    /// `distant`, whose horizon then is at most one above that bound. Does nothing if there are fewer nodes, or until
    /// a node was put for each bucket and for every eighth node that the last call counted: so a call takes no longer,
    /// on average, than to put the nodes since the last one. Fails with `NoMemory` if memory runs out.
    pub(crate) fn retire(&mut self, most: usize, distant: &mut DistantNodes) -> Result<(), NoMemory>
        requires { AreCountable self.old distant.old }
        ensures { OnOk result (IsRetired most self.old distant.old self.new distant.new) }
    {
        if self.puts_left > 0 {
            return Ok(());
        }
        let (behind, count) = bucket_behind(self.stacks.as_slice(), self.first, most)?;
        self.puts_left = self.stacks.len().saturating_add(count / 8);
        let Some(end) = behind else {
            return Ok(());
        };
        count_from(self.stacks.as_slice(), end, distant)?;
        set_aside(&mut self.stacks, end, &mut self.spent)?;
        distant.horizon = distant.horizon.min(end as u64);
        Ok(())
    }

    /// Returns the least of `makespan` and the bounds of the nodes.
    #[tactic(auto, using(crate::proofs::BoundRowLemmas::none_left, crate::proofs::BoundRowLemmas::least_from_first))]
    pub(crate) fn least_bound(&self, makespan: u64) -> u64
        ensures { result ≡ least_of_bounds makespan self.now }
    {
        let first = first_from(self.stacks.as_slice(), self.first);
        if first == self.stacks.len() {
            return makespan;
        }
        makespan.min(first as u64)
    }

    /// Returns how many nodes the row holds. Fails with `NoMemory` if they are 2^64 or more, which no memory holds.
    #[tactic(auto, using(crate::proofs::BoundRowLemmas::count_next))]
    pub(crate) fn count(&self) -> Result<usize, NoMemory>
        ensures count { IfOk result (λ n. n ≡ length self.now) }
        ensures too_many { OnErr result (2 ^ 64 ≤ length self.now) }
    {
        let mut count = 0_usize;
        for bucket in &self.stacks {
            count = count.checked_add(count_at(bucket)?).ok_or(NoMemory)?;
        }
        Ok(count)
    }

    /// Returns whether the row holds no node.
    #[tactic(auto, using(crate::proofs::BoundRowLemmas::is_none_left))]
    pub(crate) fn is_empty(&self) -> bool
        ensures { result ≡ (length self.now == 0) }
    {
        first_from(self.stacks.as_slice(), self.first) == self.stacks.len()
    }
}
