// The state of a word, and its candidates.
use shop_lanes::StateLanes;

/// The state of a word: the head of each waiting operation, by position, and each job's next operation with its end;
/// or mere room for one. Heads, ends and what is computed of them *in lanes* are one higher than the times that they
/// mean (`lane_times.rt`), so that a head of 0 says that nothing waits; times and tails are as they are.
#[derive(Drop)]
pub struct State<L: StateLanes> {
    pub(crate) lanes: L,
    /// next[job]: the position of the job's next operation, or the number of positions if none is left
    pub(crate) next: Vec<u32>,
}

/// A job of a word's conflict set. `own` is a lower bound of the word extended by `job` that considers only the machine
/// of the job's next operation.
#[derive(Clone, Copy, Debug)]
pub struct Candidate {
    pub job: u16,
    pub own: u64,
}
