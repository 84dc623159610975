// Words that share their jobs with others.
ghost use Rattle.std.specs.Prelude.{◌≡◌, ◌*◌, ◌≤◌, ◌<◌, ◌++◌, ◌∷◌, [], length, take, slice_index, vec_capacity, IfOk};
ghost use Rattle.std.specs.{Prelude.OnOk, Arc.arc_slice_items};
ghost use Rattle.shop_model.specs.{declared.limits.TheConstants.{MAX_JOBS, MAX_STEPS}, SharedWords.CanBeShared};

use std::alloc::{AllocError as NoMemory, Global};
use std::marker::Model;
use std::sync::ArcSlice;

/// A word that shares its jobs with others: the first `depth` jobs of a path, and one job more, if any.
#[derive(Drop)]
pub struct SharedWord {
    path: ArcSlice<u16, Global>,
    depth: u32,
    last: Option<u16>,
}

impl Model for SharedWord {
    ghost use Rattle.std.specs.{Prelude.{List, ℕ, ◌≤◌, length}, Arc.arc_slice_items};
    ghost use Rattle.shop_model.specs.SharedWords.{shared_word};

    ghost Value = { List ℕ };

    ghost view = { λ w. shared_word (arc_slice_items w.path) w.depth w.last };

    ghost invariant = { λ w. w.depth ≤ length (arc_slice_items w.path) };
}

impl SharedWord {
    /// Makes the word of all jobs of `path`, at most 100,000. Fails with `NoMemory` if memory runs out.
    pub fn of_path(alloc: Global, path: &[u16]) -> Result<SharedWord, NoMemory>
        requires { length path.now ≤ MAX_JOBS * MAX_STEPS }
        ensures { IfOk result (λ w. w ≡ path.now) }
    {
        let depth = path.len() as u32;
        let path = ArcSlice::from_slice(alloc, path)?;
        Ok(SharedWord {
            path,
            depth,
            last: None,
        })
    }

    /// Makes the word of `jobs`, with a path of its own. Fails with `NoMemory` if memory runs out.
    pub(crate) fn of_jobs(alloc: Global, jobs: &[usize]) -> Result<SharedWord, NoMemory>
        requires { CanBeShared jobs.now }
        ensures { IfOk result (λ w. w ≡ jobs.now) }
    {
        let mut path = Vec::new(alloc);
        set_jobs(&mut path, jobs)?;
        SharedWord::of_path(alloc, path.as_slice())
    }

    /// Makes the word of the first `depth` jobs of a path and of `last`. Copies no job and takes no memory; fails only
    /// if the path is shared more often than can be counted.
    pub fn along(
        path: &ArcSlice<u16, Global>,
        depth: u32,
        last: u16,
    ) -> Result<SharedWord, NoMemory>
        requires { depth ≤ length (arc_slice_items path.now) }
        ensures { IfOk result (λ w. w ≡ take depth (arc_slice_items path.now) ++ last ∷ []) }
    {
        Ok(SharedWord {
            path: path.clone()?,
            depth,
            last: Some(last),
        })
    }

    /// Returns a second word over the path of this one. Copies no job and takes no memory; fails only if the path is
    /// shared more often than can be counted.
    pub fn shared(&self) -> Result<SharedWord, NoMemory>
        ensures { IfOk result (λ w. w ≡ self.now) }
    {
        Ok(SharedWord {
            path: self.path.clone()?,
            depth: self.depth,
            last: self.last,
        })
    }

    /// The number of jobs of the word.
    pub fn len(&self) -> usize
        ensures { result ≡ length self.now }
    {
        let depth = self.depth as usize;
        match self.last {
            Some(_) => depth + 1,
            None => depth,
        }
    }

    /// The job at `index`, which is below the number of jobs.
    pub fn job(&self, index: usize) -> usize
        requires { index < length self.now }
        ensures { result ≡ slice_index self.now index }
    {
        if index < self.depth as usize {
            return self.path.as_slice()[index] as usize;
        }
        let Some(last) = self.last else {
            unreachable!();
        };
        last as usize
    }

    /// Replaces `list` by the jobs of the word. Fails with `NoMemory` if memory runs out.
    pub fn write_to(&self, list: &mut Vec<u16>) -> Result<(), NoMemory>
        ensures list { OnOk result (list.new.items ≡ self.now) }
        ensures room { vec_capacity list.old ≤ vec_capacity list.new }
    {
        list.clear();
        list.extend_from_slice(&self.path.as_slice()[..self.depth as usize])?;
        if let Some(job) = self.last {
            list.push(job)?;
        }
        Ok(())
    }
}

/// Replaces `list` by `jobs`, in 16 bits each. Fails with `NoMemory` if memory runs out.
pub(crate) fn set_jobs(list: &mut Vec<u16>, jobs: &[usize]) -> Result<(), NoMemory>
    requires { CanBeShared jobs.now }
    ensures list { OnOk result (list.new.items ≡ jobs.now) }
    ensures room { vec_capacity list.old ≤ vec_capacity list.new }
{
    list.clear();
    list.reserve(jobs.len())?;
    for &job in jobs {
        list.push(job as u16)?;
    }
    Ok(())
}
