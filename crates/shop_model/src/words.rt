// Job sequences: the order in which operations are dispatched.
ghost use Rattle.std.specs.Prelude.{◌≡◌, ◌↔◌, ◌<◌, ◌≤◌, All, IfOk, OnOk, IsTrue, length, slice_index, vec_capacity};
ghost use Rattle.shop_model.specs.{SharedWords.CanBeShared, Word.{count_of, IsWord, IsFull, start_jobs}};

use crate::instances::Instance;
use crate::shared_words::{SharedWord, set_jobs};
use std::alloc::{AllocError as NoMemory, Global};
use std::marker::Model;

/// The jobs of a word: a list of its own, or a path that it shares with other words.
#[derive(Drop)]
enum Entries {
    Listed(Vec<usize>),
    Shared(SharedWord),
}

/// A job sequence, the order in which operations are dispatched (permutation with repetition, Bierwirth 1995): each
/// entry is a job, and means the job's next step.
pub struct Word {
    entries: Entries,
}

// Not derived: a derived `Drop` would be compiled anew, branches included, into each function that has a word.
impl Drop for Word {
    fn drop(self) {
        let Word { entries: _ } = self;
    }
}

impl Model for Word {
    ghost use Rattle.std.specs.Prelude.{List, ℕ};
    ghost use Rattle.shop_model.specs.inner.Entries.{entries_jobs};

    ghost Value = { List ℕ };

    ghost view = { λ w. entries_jobs w.entries };
}

impl Word {
    /// Makes the word of `jobs`. Takes no memory.
    pub fn of_jobs(jobs: Vec<usize>) -> Word
        ensures { result ≡ jobs.items }
    {
        Word {
            entries: Entries::Listed(jobs),
        }
    }

    /// Makes a word that shares its jobs. Takes no memory.
    pub fn of_shared(word: SharedWord) -> Word
        ensures { result ≡ word }
    {
        Word {
            entries: Entries::Shared(word),
        }
    }

    /// The number of jobs of the word.
    pub fn len(&self) -> usize
        ensures { result ≡ length self.now }
    {
        match &self.entries {
            Entries::Listed(jobs) => jobs.len(),
            Entries::Shared(word) => word.len(),
        }
    }

    /// The job at `index`, which is below the number of jobs.
    pub fn job(&self, index: usize) -> usize
        requires { index < length self.now }
        ensures { result ≡ slice_index self.now index }
    {
        match &self.entries {
            Entries::Listed(jobs) => jobs[index],
            Entries::Shared(word) => word.job(index),
        }
    }

    /// Turns the word into one that shares its jobs. Takes memory only if the word has a list of its own. Fails with
    /// `NoMemory` if memory runs out.
    pub fn into_shared(self, alloc: Global) -> Result<SharedWord, NoMemory>
        requires { CanBeShared self }
        ensures { IfOk result (λ w. w ≡ self) }
    {
        let Word { entries } = self;
        match entries {
            Entries::Listed(jobs) => SharedWord::of_jobs(alloc, jobs.as_slice()),
            Entries::Shared(word) => Ok(word),
        }
    }

    /// Replaces `list` by the jobs of the word. Fails with `NoMemory` if memory runs out.
    pub fn write_to(&self, list: &mut Vec<u16>) -> Result<(), NoMemory>
        requires { CanBeShared self.now }
        ensures list { OnOk result (list.new.items ≡ self.now) }
        ensures room { vec_capacity list.old ≤ vec_capacity list.new }
    {
        match &self.entries {
            Entries::Listed(jobs) => set_jobs(list, jobs.as_slice()),
            Entries::Shared(word) => word.write_to(list),
        }
    }

    /// Copies the word; shared jobs stay shared. Fails with `NoMemory` if memory runs out.
    pub fn copied(&self, alloc: Global) -> Result<Word, NoMemory>
        ensures { IfOk result (λ w. w ≡ self.now) }
    {
        match &self.entries {
            Entries::Listed(jobs) => Ok(Word::of_jobs(jobs.to_vec(alloc)?)),
            Entries::Shared(word) => Ok(Word::of_shared(word.shared()?)),
        }
    }
}

/// Counts how often `job` is in `word`.
fn count(word: &Word, job: usize) -> usize
    ensures { result ≡ count_of job word.now }
{
    let mut count = 0;
    for index in 0..word.len() {
        if word.job(index) == job {
            count += 1;
        }
    }
    count
}

/// Returns whether each entry of `word` is below `jobs`.
fn are_below(jobs: usize, word: &Word) -> bool
    ensures { IsTrue result ↔ All (λ j. j < jobs) word.now }
{
    word.jobs().all(|j| j < jobs)
}

/// Returns whether `word` is a word of `instance`: each entry is one of its jobs, and no job occurs more often than its
/// route is long. Takes no memory. For library callers: the program doesn't use `fits`.
pub fn fits(instance: &Instance, word: &Word) -> bool
    ensures { IsTrue result ↔ IsWord instance.now word.now }
{
    if !are_below(instance.jobs(), word) {
        return false;
    }
    for j in 0..instance.jobs() {
        if count(word, j) > instance.route(j).len() {
            return false;
        }
    }
    true
}

/// Returns whether `word` is full: each job of the instance occurs as often as its route is long, and no other entry
/// occurs. Takes no memory. For library callers: the program doesn't use `is_full`.
pub fn is_full(instance: &Instance, word: &Word) -> bool
    ensures { IsTrue result ↔ IsFull instance.now word.now }
{
    if !are_below(instance.jobs(), word) {
        return false;
    }
    for j in 0..instance.jobs() {
        if count(word, j) != instance.route(j).len() {
            return false;
        }
    }
    true
}

/// Makes the start word: job 0 for all its steps, then job 1, and so on. Fails with `NoMemory` if memory runs out.
pub fn start_word(alloc: Global, instance: &Instance) -> Result<Word, NoMemory>
    ensures { IfOk result (λ w. w ≡ start_jobs instance.now) }
{
    instance.keeps_limits();
    let mut entries = Vec::with_capacity(alloc, instance.operations())?;
    for j in 0..instance.jobs() {
        entries.resize(entries.len() + instance.route(j).len(), j)?;
    }
    Ok(Word::of_jobs(entries))
}
