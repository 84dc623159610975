// Stacks of words, each of the open nodes of one bound.
ghost use Rattle.std.specs.Prelude.{◌≡◌, ◌^◌, ◌≤◌, ◌∷◌, [], length, IfOk, OnOk, OnErr};
ghost use Rattle.shop_runs.specs.inner.Stacks.{words_on, IsTopIfMore};

use shop_model::SharedWord;
use std::alloc::{AllocError as NoMemory, Global};
use std::mem;

/// How many words a full chunk holds. They take 4 KB.
const FULL_CHUNK: usize = 256;

/// For how many words a chunk that covers another has room at first. Most stacks end in such a chunk.
const FIRST_ROOM: usize = 16;

/// The words of the open nodes of one bound. `top` is taken next. The words below it are in chunks, of which `below` is
/// the topmost: words are put and taken only there, and the full chunks under it are never copied.
#[derive(Drop)]
pub(crate) struct Stack {
    pub(crate) top: SharedWord,
    pub(crate) below: Vec<SharedWord>,
    pub(crate) covered: Vec<Vec<SharedWord>>,
}

impl Stack {
    /// Makes a stack of one word. Takes no memory.
    pub(crate) fn of(alloc: Global, word: SharedWord) -> Stack
        ensures { words_on result ≡ word ∷ [] }
    {
        Stack {
            top: word,
            below: Vec::new(alloc),
            covered: Vec::new(alloc),
        }
    }

    /// Puts `word` on top. Fails with `NoMemory` if memory runs out; the stack has then lost words.
    #[inline(always)]
    pub(crate) fn push(&mut self, alloc: Global, word: SharedWord) -> Result<(), NoMemory>
        ensures { OnOk result (words_on self.new ≡ word ∷ words_on self.old) }
    {
        if self.below.len() >= FULL_CHUNK {
            self.cover(alloc)?;
        }
        let under = mem::replace(&mut self.top, word);
        self.below.push(under)?;
        Ok(())
    }

    /// Covers the topmost chunk by an empty one, which takes a quarter of a KB at once. Fails with `NoMemory` if memory
    /// runs out; the stack has then lost words.
    fn cover(&mut self, alloc: Global) -> Result<(), NoMemory>
        ensures { OnOk result (words_on self.new ≡ words_on self.old) }
    {
        let chunk = Vec::with_capacity(alloc, FIRST_ROOM)?;
        let full = mem::replace(&mut self.below, chunk);
        self.covered.push(full)?;
        Ok(())
    }

    /// Returns how many words the stack holds. Fails with `NoMemory` if they are 2^64 or more, which no memory holds.
    pub(crate) fn count(&self) -> Result<usize, NoMemory>
        ensures count { IfOk result (λ n. n ≡ length (words_on self.now)) }
        ensures too_many { OnErr result (2 ^ 64 ≤ length (words_on self.now)) }
    {
        let mut count = self.below.len() + 1;
        for chunk in &self.covered {
            count = count.checked_add(chunk.len()).ok_or(NoMemory)?;
        }
        Ok(count)
    }

    /// Takes the top word, if other words lie below it. Else returns `None` and changes nothing.
    pub(crate) fn pop_if_more(&mut self) -> Option<SharedWord>
        ensures { IsTopIfMore result (words_on self.old) (words_on self.new) }
    {
        while self.below.is_empty() {
            self.below = self.covered.pop()?;
        }
        let next = self.below.pop()?;
        Some(mem::replace(&mut self.top, next))
    }

    /// Returns the only word.
    pub(crate) fn into_last(self) -> SharedWord
        requires { length (words_on self) ≤ 1 }
        ensures { words_on self ≡ result ∷ [] }
    {
        let Stack {
            top,
            below: _,
            covered: _,
        } = self;
        top
    }
}
