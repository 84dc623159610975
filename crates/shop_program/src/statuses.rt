// Exit statuses, and what standard error says of faults. Saying takes no memory, so a fault is said also when memory
// has run out.
ghost use Rattle.std.specs.Prelude.{◌≡◌};
ghost use Rattle.shop_program.specs.Statuses.{status_of, status_of_line};

use crate::line_faults::LineFault;
use shop_engine::{Fault, Sink, write_all};
use std::fmt;
use std::fmt::{Display, Write};

/// The run did what was asked.
pub const DONE: u8 = 0;

/// The schedule is infeasible.
pub const INFEASIBLE: u8 = 1;

/// The command line is faulty, or asks for help.
pub const COMMAND_LINE: u8 = 2;

/// A text is refused.
pub const REFUSED: u8 = 3;

/// A read or a write failed.
pub const FAILED: u8 = 4;

/// Memory ran out.
pub const NO_MEMORY: u8 = 5;

/// A sink that takes each piece of a text as it is formatted.
#[derive(Drop)]
struct Pieces<'s, K: Sink> {
    sink: &'s mut K,
}

impl<K: Sink> Write for Pieces<'_, K> {
    fn write_str(&mut self, piece: &str) -> fmt::Result {
        write_all(self.sink, piece.as_bytes()).map_err(|_| fmt::Error)
    }
}

/// Says a text, as far as the sink takes it.
fn say<K: Sink, D: Display + Drop>(err: &mut K, text: D) {
    let mut pieces = Pieces { sink: err };
    let _ = write!(pieces, "{text}");
}

/// Says `fault` on one line, and returns the exit status.
pub fn say_fault<K: Sink>(err: &mut K, fault: Fault) -> u8
    ensures { result ≡ status_of fault }
{
    say(err, fault);
    say(err, "\n");
    match fault {
        Fault::NoMemory => NO_MEMORY,
        Fault::ReadFailed | Fault::WriteFailed => FAILED,
        _ => REFUSED,
    }
}

/// Says that memory ran out, and returns the exit status.
pub fn say_no_memory<K: Sink>(err: &mut K) -> u8
    ensures { result ≡ 5 }
{
    say_fault(err, Fault::NoMemory)
}

/// Says that a word of the command line isn't UTF-8, and returns the exit status.
pub fn say_no_text<K: Sink>(err: &mut K) -> u8
    ensures { result ≡ 2 }
{
    say(err, "error: a word of the command line isn't UTF-8\n");
    COMMAND_LINE
}

/// Says clap's text of a fault of the command line, or that memory ran out, and returns the exit status.
pub fn say_line_fault<K: Sink>(err: &mut K, fault: LineFault) -> u8
    ensures { result ≡ status_of_line fault }
{
    match fault {
        LineFault::NoMemory => say_no_memory(err),
        LineFault::Usage(usage) => {
            say(err, usage);
            COMMAND_LINE
        }
    }
}
