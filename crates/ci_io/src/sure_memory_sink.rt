ghost use Rattle.std.specs.Prelude.{◌≡◌, ◌↔◌, ◌<◌, ◌≤◌, ◌+◌, [], IsErr, IfOk, Some, length, min};
ghost use Rattle.std.specs.Io.{WritesAtMost};
ghost use Rattle.std.specs.Io.KnownBytes.{WriteAppends};
ghost use Rattle.ci_io.specs.Causes.{HasCause};

use crate::memory_parts::{add_front, copy_within_room};
use crate::{Failed, Sink};
use ci_base::OutOfMemory;
use std::alloc::Global;
use std::marker::Model;

/// A sink in memory, whose puts fail only for want of room. Contracts see a `SureSinkState`.
#[derive(Debug, Drop)]
pub struct SureMemorySink {
    bytes: Vec<u8>,
    most: usize,
    room: usize,
    faults: u64,
}

impl Model for SureMemorySink {
    ghost use Rattle.std.specs.Prelude.{◌≤◌, vec_len, vec_capacity};
    ghost use Rattle.ci_io.specs.Memory.{SureSinkState};

    ghost Value = { SureSinkState };

    ghost view = { λ s. record {
      written = s.bytes.items;
      most = s.most;
      room = s.room;
      faults = s.faults;
    } };

    ghost invariant = { λ s. (1 ≤ s.most) × (vec_len s.bytes ≤ s.room)
        × (s.room ≤ vec_capacity s.bytes) };
}

impl SureMemorySink {
    /// A sink with nothing written. A put takes at most `most` bytes, and all puts together at most
    /// `room`, for which the memory is taken here.
    pub fn new(alloc: Global, most: usize, room: usize) -> Result<SureMemorySink, OutOfMemory>
        requires { 1 ≤ most }
        ensures { IfOk result (λ s. s ≡ record {
          written = [];
          most = most;
          room = room;
          faults = 0;
        }) }
    {
        Ok(SureMemorySink {
            bytes: Vec::with_capacity(alloc, room)?,
            most,
            room,
            faults: 0,
        })
    }

    /// Another sink that equals this one, with room of its own.
    pub fn copy(&self, alloc: Global) -> Result<SureMemorySink, OutOfMemory>
        ensures { IfOk result (λ s. s ≡ self.now) }
    {
        Ok(SureMemorySink {
            bytes: copy_within_room(alloc, &self.bytes, self.room)?,
            most: self.most,
            room: self.room,
            faults: self.faults,
        })
    }

    /// The bytes written.
    pub fn bytes(&self) -> &[u8]
        ensures { result.now ≡ self.now.written }
    {
        self.bytes.as_slice()
    }
}

impl Sink for SureMemorySink {
    ghost written = { λ s. Some s.written };

    ghost faults = { λ s. s.faults };

    fn put(&mut self, bytes: &[u8]) -> Result<usize, Failed>
        ensures bound { WritesAtMost result bytes.now }
        ensures some { IfOk result (λ n. 0 < length bytes.now → 0 < n) }
        ensures bytes { WriteAppends (Some self.old.written) (Some self.new.written) result
            bytes.now }
        ensures cause { HasCause self.old.faults self.new.faults result }

        // A put fails where what it would take passes the room.
        ensures fails { IsErr result
            ↔ (self.old.room < length self.old.written + min self.old.most (length bytes.now)) }
        ensures count { IfOk result (λ n. n ≡ min self.old.most (length bytes.now)) }
        ensures most { self.new.most ≡ self.old.most }
        ensures room { self.new.room ≡ self.old.room }
    {
        match add_front(&mut self.bytes, self.most, self.room, bytes) {
            Some(count) => Ok(count),
            None => {
                self.faults = self.faults.saturating_add(1);
                Err(Failed)
            }
        }
    }
}
