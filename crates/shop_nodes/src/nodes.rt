// Nodes: words with their lower bounds, whose jobs other words can share.
ghost use Rattle.std.specs.Prelude.{◌≡◌, IfOk};
ghost use Rattle.shop_model.specs.{SharedWords.CanBeShared, Word.IsWord};
ghost use Rattle.shop_bound.specs.Bound.{lb};

use shop_bound::lower_bound;
use shop_model::{Instance, SharedWord, Word};
use std::alloc::{AllocError as NoMemory, Global};
use std::marker::Model;

/// A node of the search: a word and its lower bound, in units of time.
#[derive(Drop)]
pub struct Node {
    pub word: Word,
    pub bound: u64,
}

impl Node {
    /// Makes the node of `word`, a word of the instance, with its bound. Fails with `NoMemory` if memory runs out.
    pub fn new(alloc: Global, instance: &Instance, word: Word) -> Result<Node, NoMemory>
        requires { IsWord instance.now word }
        ensures { IfOk result (λ n. (n.word ≡ word) × (n.bound ≡ lb instance.now word)) }
    {
        let bound = lower_bound(alloc, instance, &word)?;
        Ok(Node { word, bound })
    }

    /// Copies the node; shared jobs of its word stay shared. Fails with `NoMemory` if memory runs out.
    pub fn copied(&self, alloc: Global) -> Result<Node, NoMemory>
        ensures { IfOk result (λ n. n ≡ self.now) }
    {
        Ok(Node {
            word: self.word.copied(alloc)?,
            bound: self.bound,
        })
    }
}

/// A node whose word can share its jobs with other words: the form in which a run puts nodes into its store. It takes
/// 24 bytes. Contracts see the node.
#[derive(Drop)]
pub struct SharedNode {
    word: SharedWord,
    bound: u64,
}

impl Model for SharedNode {
    ghost use Rattle.shop_nodes.specs.declared.nodes.Node.{Node};

    ghost Value = { Node };

    ghost view = { λ n. record { word = n.word; bound = n.bound } };
}

impl SharedNode {
    /// Makes the node of `word`, whose lower bound is `bound`, in units of time.
    pub fn new(word: SharedWord, bound: u64) -> SharedNode
        ensures { result ≡ record { word = word; bound = bound } }
    {
        SharedNode { word, bound }
    }

    /// Makes the shared form of `node`. Takes memory only if the node's word has a list of jobs of its own. Fails with
    /// `NoMemory` if memory runs out.
    pub fn of(alloc: Global, node: Node) -> Result<SharedNode, NoMemory>
        requires { CanBeShared node.word }
        ensures { IfOk result (λ n. n ≡ node) }
    {
        let Node { word, bound } = node;
        let word = word.into_shared(alloc)?;
        Ok(SharedNode { word, bound })
    }

    /// Returns the node's lower bound, in units of time.
    pub fn bound(&self) -> u64
        ensures { result ≡ self.now.bound }
    {
        self.bound
    }

    /// Returns the node's word and its lower bound, in units of time.
    pub fn into_parts(self) -> (SharedWord, u64)
        ensures word { result.0 ≡ self.word }
        ensures bound { result.1 ≡ self.bound }
    {
        let SharedNode { word, bound } = self;
        (word, bound)
    }

    /// Turns the shared form back into a node.
    pub fn into_node(self) -> Node
        ensures { result ≡ self }
    {
        let SharedNode { word, bound } = self;
        let word = Word::of_shared(word);
        Node { word, bound }
    }
}
