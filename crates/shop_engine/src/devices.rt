// What the program reads from and writes to, by std's readers and writers, and whole texts read and written.
ghost use Rattle.std.specs.Prelude.{◌≡◌, ◌<◌, ◌≤◌, length, IfOk, IfErr, OnOk};
ghost use Rattle.std.specs.Io.KnownBytes.{ReadConsumes, WriteAppends};
ghost use Rattle.shop_text.specs.declared.limits.TheConstants.{MAX_TEXT};
ghost use Rattle.shop_engine.specs.Devices.{Device, Counts, TellsEnd, GoesOn};
ghost use Rattle.shop_engine.specs.Devices.{IsReadToEnd, IsUnread, IsWritten, IsUnwritten};

use crate::faults::Fault;
use shop_text::MAX_TEXT;
use std::alloc::Global;
use std::io::{Read, Write};

/// The failure of a source or a sink.
#[derive(Clone, Copy, Debug, PartialEq, Eq)]
pub struct DeviceFailed;

/// A source of bytes, such as a file or standard input.
pub trait Source {
    /// The bytes that the source has left, if they are known, and how often it has failed and returned its end.
    ghost device: { Self → Device };

    /// Reads some bytes to the front of `buffer`, and returns how many: none only at the end, or if `buffer` is empty.
    /// Reads nothing if the source fails.
    fn read(&mut self, buffer: &mut [u8]) -> Result<usize, DeviceFailed>
        ensures bound { IfOk result (λ n. n ≤ length buffer.new) }
        ensures bytes { ReadConsumes (device self.old).bytes (device self.new).bytes result buffer.new }
        ensures count { Counts (device self.old) (device self.new) result }
        ensures end { IfOk result (λ n. TellsEnd (device self.old) (device self.new) (length buffer.new) n) }
        ensures no_end { IfErr result (λ _. GoesOn (device self.old) (device self.new)) };
}

/// A sink of bytes, such as a file or standard output.
pub trait Sink {
    /// The bytes that the sink holds, if they are known, and how often it has failed.
    ghost device: { Self → Device };

    /// Writes some bytes from the front of `buffer`, and returns how many: none only if `buffer` is empty. Writes
    /// nothing if the sink fails.
    fn write(&mut self, buffer: &[u8]) -> Result<usize, DeviceFailed>
        ensures bound { IfOk result (λ n. n ≤ length buffer.now) }
        ensures some { IfOk result (λ n. 0 < length buffer.now → 0 < n) }
        ensures bytes { WriteAppends (device self.old).bytes (device self.new).bytes result buffer.now }
        ensures count { Counts (device self.old) (device self.new) result };
}

/// A source over a reader, such as a file, standard input or a slice of bytes. Each read is one read of the reader. A
/// read that fails, even if only interrupted, is a failure and isn't tried again.
#[derive(Drop)]
pub struct Reading<R: Read + Drop> {
    reader: R,
    failures: u64,
    ends: u64,
}

impl<R: Read + Drop> Reading<R> {
    /// Makes a source over `reader` that hasn't failed or returned its end yet.
    pub fn new(reader: R) -> Reading<R>
        ensures { result ≡ record { reader = reader; failures = 0; ends = 0 } }
    {
        Reading {
            reader,
            failures: 0,
            ends: 0,
        }
    }
}

impl<R: Read + Drop> Source for Reading<R> {
    ghost device = { λ s. record { bytes = R.remaining s.reader; failures = s.failures; ends = s.ends } };

    fn read(&mut self, buffer: &mut [u8]) -> Result<usize, DeviceFailed> {
        match self.reader.read(buffer) {
            Ok(n) => {
                if n == 0 && !buffer.is_empty() {
                    self.ends = self.ends.saturating_add(1);
                }
                Ok(n)
            }
            Err(_) => {
                self.failures = self.failures.saturating_add(1);
                Err(DeviceFailed)
            }
        }
    }
}

/// A sink over a writer, such as a file or standard output. Each write is one write of the writer. A write that fails,
/// or takes none of some bytes, is a failure and isn't tried again.
#[derive(Drop)]
pub struct Writing<W: Write + Drop> {
    writer: W,
    failures: u64,
}

impl<W: Write + Drop> Writing<W> {
    /// Makes a sink over `writer` that hasn't failed yet.
    pub fn new(writer: W) -> Writing<W>
        ensures { result ≡ record { writer = writer; failures = 0 } }
    {
        Writing {
            writer,
            failures: 0,
        }
    }
}

impl<W: Write + Drop> Sink for Writing<W> {
    ghost device = { λ s. record { bytes = W.contents s.writer; failures = s.failures; ends = 0 } };

    fn write(&mut self, buffer: &[u8]) -> Result<usize, DeviceFailed> {
        match self.writer.write(buffer) {
            Ok(n) if n > 0 || buffer.is_empty() => Ok(n),
            _ => {
                self.failures = self.failures.saturating_add(1);
                Err(DeviceFailed)
            }
        }
    }
}

/// Reads all bytes of `source` up to its end, and doesn't read again after a read that returned the end. Fails with
/// `ReadFailed` if the source fails, and with `TooLong` after the first byte above `MAX_TEXT`. Fails with `NoMemory` if
/// memory runs out.
pub fn read_all<S: Source>(alloc: Global, source: &mut S) -> Result<Vec<u8>, Fault>
    ensures short { IfOk result (λ text. length text.items ≤ MAX_TEXT) }
    ensures read { IfOk result (λ text. IsReadToEnd (S.device source.old) (S.device source.new) text.items) }
    ensures unread { IfErr result (λ fault. IsUnread (S.device source.old) (S.device source.new) fault) }
{
    let mut text = Vec::new(alloc);
    let mut buffer = [0u8; 4096];
    while text.len() <= MAX_TEXT {
        let room = (MAX_TEXT + 1 - text.len()).min(buffer.len());
        let Ok(count) = source.read(&mut buffer[..room]) else {
            return Err(Fault::ReadFailed);
        };
        if count == 0 {
            return Ok(text);
        }
        text.extend_from_slice(&buffer[..count])?;
    }
    Err(Fault::TooLong)
}

/// Writes all of a text. Fails with `WriteFailed` if the sink fails; the sink then holds a beginning of the text.
pub fn write_all<K: Sink>(sink: &mut K, text: &[u8]) -> Result<(), Fault>
    ensures written { OnOk result (IsWritten (K.device sink.old) (K.device sink.new) text.now) }
    ensures unwritten { IfErr result (λ fault. IsUnwritten (K.device sink.old) (K.device sink.new) text.now fault) }
{
    let mut rest = text;
    while !rest.is_empty() {
        let Ok(count) = sink.write(rest) else {
            return Err(Fault::WriteFailed);
        };
        rest = &rest[count..];
    }
    Ok(())
}
