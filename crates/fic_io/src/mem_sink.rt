//! A sink in memory.

ghost use Rattle.std.specs.Prelude.{◌≤◌, ◌+◌};
ghost use Rattle.std.specs.Vec.{vec_capacity, vec_len};

use crate::sink::{Failed, Sink};
use num_type::Memory;
use std::alloc::Global;

/// A sink in memory, of fixed room, that takes at most `most` bytes a call. It tells its bytes.
#[derive(Drop)]
pub struct MemSink {
    bytes: Vec<u8>,
    room: usize,
    most: usize,
    faults: u64,
    ghost takes: { 1 ≤ most },
    ghost holds: { vec_len bytes + room ≤ vec_capacity bytes },
}

impl MemSink {
    ghost use Rattle.std.specs.Prelude.{◌≡◌, ◌≤◌, [], IfOk};
    ghost use Rattle.fic_io.specs.Known.{bytes_in, sink_faults, room_in, most_in};

    /// A sink with room for `room` bytes, which takes at most `most` bytes a call and fails when the room is used up. Want of memory is
    /// its only refusal.
    pub fn new(alloc: Global, room: usize, most: usize) -> Result<MemSink, Memory>
        requires { 1 ≤ most }
        ensures empty { IfOk result (λ s. (bytes_in s ≡ []) × (sink_faults s ≡ 0)) }
        ensures takes { IfOk result (λ s. (room_in s ≡ room) × (most_in s ≡ most)) }
    {
        Ok(MemSink {
            bytes: Vec::with_capacity(alloc, room)?,
            room,
            most,
            faults: 0,
        })
    }

    /// The bytes taken so far.
    pub fn bytes(&self) -> &[u8]
        ensures { result.now ≡ bytes_in self.now }
    {
        self.bytes.as_slice()
    }
}

impl Sink for MemSink {
    ghost use Rattle.std.specs.Prelude.{◌≡◌, ◌≤◌, Some, length};
    ghost use Rattle.fic_io.specs.Known.{bytes_in, sink_faults, room_in, most_in};
    ghost use Rattle.fic_io.specs.Causes.{PutLeaves, TakesByRoom};

    ghost taken = { λ s. Some (bytes_in s) };

    ghost faults = { λ s. sink_faults s };

    fn put(&mut self, bytes: &[u8]) -> Result<usize, Failed>
        requires { 1 ≤ length bytes.now }
        ensures leaves { PutLeaves result bytes.now (sink_faults self.old) (sink_faults self.new) (Some (bytes_in self.old)) (Some (bytes_in self.new)) }
        ensures room { TakesByRoom result bytes.now (most_in self.old) (room_in self.old) (room_in self.new) }
        ensures most { most_in self.new ≡ most_in self.old }
    {
        let count = bytes.len().min(self.most).min(self.room);
        if count == 0 {
            self.faults = self.faults.saturating_add(1);
            return Err(Failed);
        }
        match self.bytes.extend_from_slice(&bytes[..count]) {
            Ok(()) => {
                self.room -= count;
                Ok(count)
            }
            Err(_) => unreachable!(),
        }
    }
}
