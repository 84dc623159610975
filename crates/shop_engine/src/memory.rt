// A sink that writes into room made beforehand.
ghost use Rattle.std.specs.Prelude.{◌≡◌, ◌-◌, ◌≤◌, [], IfOk, vec_len, vec_capacity};

use crate::devices::{DeviceFailed, Sink};
use std::alloc::{AllocError as NoMemory, Global};

/// A sink that holds its bytes in memory, in room that `with_room` made. Writing takes no memory, and fails only if the
/// room is full. For library callers: the program doesn't use `Memory`.
#[derive(Drop)]
pub struct Memory {
    held: Vec<u8>,
    room: usize,
    failures: u64,
    ghost within: { (vec_len held ≤ room) × (room ≤ vec_capacity held) },
}

impl Memory {
    /// Makes an empty sink with room for `room` bytes. Fails with `NoMemory` if memory runs out.
    pub fn with_room(alloc: Global, room: usize) -> Result<Memory, NoMemory>
        ensures empty { IfOk result (λ m. m.held.items ≡ []) }
        ensures fresh { IfOk result (λ m. m.failures ≡ 0) }
        ensures room { IfOk result (λ m. m.room ≡ room) }
    {
        Ok(Memory {
            held: Vec::with_capacity(alloc, room)?,
            room,
            failures: 0,
        })
    }

    /// Returns the bytes written so far.
    pub fn bytes(&self) -> &[u8]
        ensures { result.now ≡ self.now.held.items }
    {
        self.held.as_slice()
    }
}

impl Sink for Memory {
    ghost use Rattle.std.specs.{Prelude.{◌<◌, IfErr, length, min}, Io.KnownBytes.WriteAppends};
    ghost use Rattle.shop_engine.specs.Devices.{Counts, device_of};

    ghost device = { device_of };

    /// Writes as much from the front of `buffer` as there is room for, and returns how many bytes. Fails only if the
    /// room is full and `buffer` isn't empty.
    fn write(&mut self, buffer: &[u8]) -> Result<usize, DeviceFailed>
        ensures bound { IfOk result (λ n. n ≤ length buffer.now) }
        ensures some { IfOk result (λ n. 0 < length buffer.now → 0 < n) }
        ensures bytes { WriteAppends (device_of self.old).bytes (device_of self.new).bytes result buffer.now }
        ensures count { Counts (device_of self.old) (device_of self.new) result }
        ensures most { IfOk result (λ n. n ≡ min (length buffer.now) (self.old.room - length self.old.held.items)) }
        ensures full { IfErr result (λ _. (0 < length buffer.now) × (length self.old.held.items ≡ self.old.room)) }
        ensures room { self.new.room ≡ self.old.room }
    {
        let count = buffer.len().min(self.room - self.held.len());
        if count == 0 && !buffer.is_empty() {
            self.failures = self.failures.saturating_add(1);
            return Err(DeviceFailed);
        }
        self.held.extend_from_slice(&buffer[..count]).unwrap();
        Ok(count)
    }
}
