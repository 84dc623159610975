// Operations, jobs, and what names an operation.

/// An operation of a route: the machine that it needs, counted from 0, and for how many units of time.
#[derive(Clone, Copy, Debug, PartialEq, Eq)]
pub struct Op {
    pub machine: usize,
    pub time: u64,
}

/// A job: when it is released, and its operations in the order in which they have to be done.
#[derive(Debug, Drop)]
pub struct Job {
    pub release: u64,
    pub route: Vec<Op>,
}

/// Names an operation: step `step` of job `job`, both counted from 0.
#[derive(Clone, Copy, Debug, PartialEq, Eq)]
pub struct OperationId {
    pub job: usize,
    pub step: usize,
}
