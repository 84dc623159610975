// The limits of texts.

/// The longest text that is read, in bytes: of instances, and of a schedule.
pub const MAX_TEXT: usize = 16_777_216;

/// The most columns of a Gantt text.
pub const MAX_COLUMNS: u64 = 72;
