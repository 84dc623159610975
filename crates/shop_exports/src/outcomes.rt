// How a call ends, and what it puts in the caller's room.
ghost use Rattle.std.specs.Prelude.{◌≡◌, false};
ghost use Rattle.shop_exports.specs.Outcomes.{IsGiven, is_refused, is_faulty};

use shop_text::ReadFault;

/// The text is in the room.
pub const DONE: u32 = 0;

/// The text is longer than the room, which is as it was.
pub const TOO_SMALL: u32 = 100;

/// An argument has a value that it may not have.
pub const BAD_ARGUMENT: u32 = 101;

/// How a call ended: `DONE`, `TOO_SMALL`, `BAD_ARGUMENT` or the number of the refusal; whether the schedule is
/// feasible; the line of the refusal, or 0 if it has none; and the length of the text, whether it fits or not.
#[repr(C)]
#[derive(Clone, Copy)]
pub struct CallResult {
    pub status: u32,
    pub feasible: bool,
    pub line: usize,
    pub length: usize,
}

/// Makes the result of a call that gives no text. `line` is that of a refusal, or 0 if it has none.
fn without_text(status: u32, line: usize) -> CallResult
    ensures { result ≡ record { status = status; feasible = false; line = line; length = 0 } }
{
    CallResult {
        status,
        feasible: false,
        line,
        length: 0,
    }
}

/// Makes the result of a refused call.
pub(crate) fn refused(fault: ReadFault) -> CallResult
    ensures { result ≡ is_refused fault }
{
    match fault {
        ReadFault::NoMemory => without_text(1, 0),
        ReadFault::TooLong => without_text(3, 0),
        ReadFault::NoInstance => without_text(4, 0),
        ReadFault::BadShape { line } => without_text(5, line),
        ReadFault::BadSize { line } => without_text(6, line),
        ReadFault::BadRow { line } => without_text(7, line),
        ReadFault::Truncated { line } => without_text(8, line),
        ReadFault::BadMachine { line } => without_text(9, line),
        ReadFault::BadTime { line } => without_text(10, line),
        ReadFault::NoSuchName => without_text(11, 0),
        ReadFault::BadTable { line } => without_text(12, line),
    }
}

/// Makes the result of a call with a faulty argument.
pub(crate) fn faulty() -> CallResult
    ensures { result ≡ is_faulty }
{
    without_text(BAD_ARGUMENT, 0)
}

/// Writes `text` to the front of `room` if it fits, and makes the result of the call.
pub(crate) fn give(room: &mut [u8], text: &[u8], feasible: bool) -> CallResult
    ensures { IsGiven feasible text.now room.old room.new result }
{
    let fits = text.len() <= room.len();
    if fits {
        let (front, _) = room.split_at_mut(text.len());
        front.copy_from_slice(text);
    }
    CallResult {
        status: if fits { DONE } else { TOO_SMALL },
        feasible,
        line: 0,
        length: text.len(),
    }
}
