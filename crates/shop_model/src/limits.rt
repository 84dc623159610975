// The limits of instances and tables. They keep every sum of times far below 2^64.

/// The most jobs of an instance.
pub const MAX_JOBS: usize = 1_000;

/// The most machines of an instance.
pub const MAX_MACHINES: usize = 100;

/// The most operations of a route.
pub const MAX_STEPS: usize = 100;

/// The longest time of an operation, and the latest release, in units of time.
pub const MAX_TIME: u64 = 1_000_000_000;

/// The latest start in a table, in units of time.
pub const MAX_START: u64 = 1_000_000_000_000_000;
