ghost use Rattle.std.specs.Prelude.{◌≡◌, ◌↔◌, ◌<◌, ◌≤◌, ◌+◌, ◌⊎◌, [], Contains, IsErr, IfOk, Some, length, min};
ghost use Rattle.std.specs.Io.{WritesAtMost};
ghost use Rattle.std.specs.Io.KnownBytes.{WriteAppends};
ghost use Rattle.ci_io.specs.Causes.{HasCause, one_more};

use crate::memory_parts::{add_front, copy_within_room};
use crate::{Failed, Sink};
use ci_base::OutOfMemory;
use std::alloc::Global;
use std::marker::Model;

/// A sink in memory, with a list of the calls that are to fail. Contracts see a `SinkState`.
#[derive(Debug, Drop)]
pub struct MemorySink {
    bytes: Vec<u8>,
    most: usize,
    room: usize,
    fails: Vec<u64>,
    calls: u64,
    faults: u64,
}

impl Model for MemorySink {
    ghost use Rattle.std.specs.Prelude.{◌≤◌, vec_len, vec_capacity};
    ghost use Rattle.ci_io.specs.Memory.{SinkState};

    ghost Value = { SinkState };

    ghost view = { λ s. record {
      written = s.bytes.items;
      most = s.most;
      room = s.room;
      fails = s.fails.items;
      calls = s.calls;
      faults = s.faults;
    } };

    ghost invariant = { λ s. (1 ≤ s.most) × (vec_len s.bytes ≤ s.room)
        × (s.room ≤ vec_capacity s.bytes) };
}

impl MemorySink {
    /// A sink with nothing written. A put takes at most `most` bytes, and all puts together at most
    /// `room`, for which the memory is taken here. Puts whose numbers, counted from 0, stand in
    /// `fails` are to fail.
    pub fn new(
        alloc: Global,
        most: usize,
        fails: Vec<u64>,
        room: usize,
    ) -> Result<MemorySink, OutOfMemory>
        requires { 1 ≤ most }
        ensures { IfOk result (λ s. s ≡ record {
          written = [];
          most = most;
          room = room;
          fails = fails.items;
          calls = 0;
          faults = 0;
        }) }
    {
        Ok(MemorySink {
            bytes: Vec::with_capacity(alloc, room)?,
            most,
            room,
            fails,
            calls: 0,
            faults: 0,
        })
    }

    /// Another sink that equals this one, with room of its own.
    pub fn copy(&self, alloc: Global) -> Result<MemorySink, OutOfMemory>
        ensures { IfOk result (λ s. s ≡ self.now) }
    {
        Ok(MemorySink {
            bytes: copy_within_room(alloc, &self.bytes, self.room)?,
            most: self.most,
            room: self.room,
            fails: Vec::from_slice(alloc, self.fails.as_slice())?,
            calls: self.calls,
            faults: self.faults,
        })
    }

    /// How many puts were made.
    pub fn calls(&self) -> u64
        ensures { result ≡ self.now.calls }
    {
        self.calls
    }

    /// The bytes written.
    pub fn bytes(&self) -> &[u8]
        ensures { result.now ≡ self.now.written }
    {
        self.bytes.as_slice()
    }
}

impl Sink for MemorySink {
    ghost written = { λ s. Some s.written };

    ghost faults = { λ s. s.faults };

    fn put(&mut self, bytes: &[u8]) -> Result<usize, Failed>
        ensures bound { WritesAtMost result bytes.now }
        ensures some { IfOk result (λ n. 0 < length bytes.now → 0 < n) }
        ensures bytes { WriteAppends (Some self.old.written) (Some self.new.written) result
            bytes.now }
        ensures cause { HasCause self.old.faults self.new.faults result }

        // A put fails where its number is listed, and where what it would take passes the room.
        ensures fails { IsErr result ↔ (Contains self.old.fails self.old.calls
            ⊎ (self.old.room < length self.old.written + min self.old.most (length bytes.now))) }
        ensures count { IfOk result (λ n. n ≡ min self.old.most (length bytes.now)) }
        ensures calls { self.new.calls ≡ one_more self.old.calls }
        ensures listed { self.new.fails ≡ self.old.fails }
        ensures most { self.new.most ≡ self.old.most }
        ensures room { self.new.room ≡ self.old.room }
    {
        let call = self.calls;
        self.calls = call.saturating_add(1);
        if self.fails.contains(&call) {
            self.faults = self.faults.saturating_add(1);
            return Err(Failed);
        }
        match add_front(&mut self.bytes, self.most, self.room, bytes) {
            Some(count) => Ok(count),
            None => {
                self.faults = self.faults.saturating_add(1);
                Err(Failed)
            }
        }
    }
}
