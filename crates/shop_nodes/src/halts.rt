// Where a walk halted: its path, and the pending children along it.
use std::alloc::Global;
use std::sync::ArcSlice;

/// An open child, with its lower bound. Its word is the first `depth` jobs of the walk's path, then `job`.
#[derive(Clone, Copy)]
pub struct Open {
    pub depth: u32,
    pub job: u16,
    pub bound: u64,
}

/// A pending open child, with the fields of `Open`, or pending closed children. Pending children were put on the stack
/// and not walked yet. Closed children have bounds that reach the best makespan and are only counted. They are the last
/// `count` children of one word: the first `depth` jobs of the walk's path. The variant has a child's fields itself, so
/// that an entry takes 16 bytes, not 24 as with an `Open` in it: each search brings a list of these.
#[derive(Clone, Copy)]
pub enum Pending {
    Child { job: u16, depth: u32, bound: u64 },
    Rest { depth: u32, count: u32 },
}

/// Where a walk halted: the path to its current word, and the pending children along it. The last one is walked next.
#[derive(Drop)]
pub struct Halt {
    pub path: ArcSlice<u16, Global>,
    pub pending: Vec<Pending>,
}
