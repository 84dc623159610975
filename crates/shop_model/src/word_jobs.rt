// The jobs of a word, one after the other.
ghost use Rattle.std.specs.{Prelude.◌≡◌, Iterator.{YieldsFirst, item_count}};

use crate::words::Word;
use std::marker::Model;

/// An iterator over the jobs of a word, in order. Contracts see the list of the jobs that are still to come.
#[derive(Drop)]
pub struct Jobs<'w> {
    word: &'w Word,
    next: usize,
}

impl<'w> Model for Jobs<'w> {
    ghost use Rattle.std.specs.Prelude.{List, ℕ, ◌≤◌, drop, length};

    ghost Value = { List ℕ };

    ghost view = { λ s. drop s.next s.word.now };

    ghost invariant = { λ s. s.next ≤ length s.word.now };
}

impl<'w> Jobs<'w> {
    /// Begins before the first job of `word`.
    fn of(word: &'w Word) -> Jobs<'w>
        ensures { result ≡ word.now }
    {
        Jobs { word, next: 0 }
    }
}

impl Word {
    /// The jobs of the word, in order.
    pub fn jobs(&self) -> Jobs<'_>
        ensures { result ≡ self.now }
    {
        Jobs::of(self)
    }
}

impl<'w> Iterator for Jobs<'w> {
    type Item = usize;

    ghost remaining = { item_count (λ s. s) };

    ghost next_gives = { YieldsFirst (λ s. s) };

    fn next(&mut self) -> Option<usize> {
        let index = self.next;
        if index == self.word.len() {
            return None;
        }
        self.next = index + 1;
        Some(self.word.job(index))
    }
}
