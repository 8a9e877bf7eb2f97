ghost use Rattle.std.specs.Prelude.{◌≡◌, ◌↔◌, ◌⊎◌, ◌<◌, ◌+◌, [], Contains, Some, IfOk, IfSome, IsErr, OnErr, false, length, min, nat_lt, take, drop};
ghost use Rattle.std.specs.Io.{ReadsAtMost, WritesAtMost};
ghost use Rattle.std.specs.Io.KnownBytes.{Appends};
ghost use Rattle.ci_link.specs.Memory.{entry_of};
ghost use Rattle.ci_io.specs.Causes.{HasCause, one_more};

use crate::memory_parts::{add_within, copy_within_room, give_front};
use crate::record_room::RecordRoom;
use crate::{Link, LinkRecord};
use ci_base::{OutOfMemory, Text8};
use ci_io::Failed;
use std::alloc::Global;
use std::marker::Model;

/// A link to a daemon in memory that gives these answers whatever it is sent, with a list of the
/// calls that are to fail. Contracts see a `LinkState`.
#[derive(Debug, Drop)]
pub struct MemoryLink {
    answers: Text8,
    given: usize,
    sent: Vec<u8>,
    room: usize,
    fails: Vec<u64>,
    calls: u64,
    faults: u64,
    // The memory for its record.
    memory: RecordRoom,
}

impl Model for MemoryLink {
    ghost use Rattle.std.specs.Prelude.{◌≤◌, drop, length, take, vec_capacity, vec_len};
    ghost use Rattle.ci_link.specs.Memory.{LinkState};

    ghost Value = { LinkState };

    ghost view = { λ l. record {
      given = take l.given l.answers;
      left = drop l.given l.answers;
      sent = l.sent.items;
      room = l.room;
      fails = l.fails.items;
      calls = l.calls;
      faults = l.faults;
    } };

    ghost invariant = { λ l. (l.given ≤ length l.answers) × (vec_len l.sent ≤ l.room)
        × (l.room ≤ vec_capacity l.sent) };
}

impl MemoryLink {
    /// A link that gives these answers, and then the end. All sends together take at most `room`
    /// bytes, for which the memory is taken here. Calls whose numbers, counted from 0, stand in
    /// `fails` are to fail.
    pub fn new(
        alloc: Global,
        answers: Text8,
        fails: Vec<u64>,
        room: usize,
    ) -> Result<MemoryLink, OutOfMemory>
        ensures { IfOk result (λ l. l ≡ record {
          given = [];
          left = answers;
          sent = [];
          room = room;
          fails = fails.items;
          calls = 0;
          faults = 0;
        }) }
    {
        Ok(MemoryLink {
            answers,
            given: 0,
            sent: Vec::with_capacity(alloc, room)?,
            room,
            fails,
            calls: 0,
            faults: 0,
            memory: RecordRoom::new(alloc)?,
        })
    }

    /// Another link that equals this one, with room of its own.
    pub fn copy(&self, alloc: Global) -> Result<MemoryLink, OutOfMemory>
        ensures { IfOk result (λ l. l ≡ self.now) }
    {
        Ok(MemoryLink {
            answers: self.answers.copy(alloc)?,
            given: self.given,
            sent: copy_within_room(alloc, &self.sent, self.room)?,
            room: self.room,
            fails: Vec::from_slice(alloc, self.fails.as_slice())?,
            calls: self.calls,
            faults: self.faults,
            memory: RecordRoom::new(alloc)?,
        })
    }

    /// What is told of the link, once it is given back, and the memory for that.
    pub(crate) fn into_record(self) -> (LinkRecord, RecordRoom)
        ensures { result.0 ≡ entry_of self.sent self.given self.left self.faults }
    {
        let more = self.given < self.answers.items().len();
        let mut given = self.answers.into_vec();
        given.truncate(self.given);
        let record = LinkRecord {
            sent: Text8::from(self.sent),
            given: Text8::from(given),
            rose: self.faults > 0,
            more,
        };
        (record, self.memory)
    }

    /// The bytes that were sent.
    pub fn sent(&self) -> &[u8]
        ensures { result.now ≡ self.now.sent }
    {
        self.sent.as_slice()
    }
}

impl Link for MemoryLink {
    ghost sent = { λ l. Some l.sent };

    ghost given = { λ l. Some l.given };

    ghost more = { λ l. Some (nat_lt 0 (length l.left)) };

    ghost faults = { λ l. l.faults };

    fn send(&mut self, bytes: &[u8]) -> Result<usize, Failed>
        ensures bound { WritesAtMost result bytes.now }
        ensures some { IfOk result (λ n. 0 < length bytes.now → 0 < n) }
        ensures ok { IfOk result
            (λ n. Appends (Some self.old.sent) (Some self.new.sent) (take n bytes.now)) }
        ensures err { OnErr result (Some self.new.sent ≡ Some self.old.sent) }
        ensures given { Some self.new.given ≡ Some self.old.given }
        ensures more { Some (nat_lt 0 (length self.new.left))
            ≡ Some (nat_lt 0 (length self.old.left)) }
        ensures left { self.new.left ≡ self.old.left }
        ensures cause { HasCause self.old.faults self.new.faults result }

        // A send fails where its number is listed, and where its bytes pass the room.
        ensures fails { IsErr result ↔ (Contains self.old.fails self.old.calls
            ⊎ (self.old.room < length self.old.sent + length bytes.now)) }
        ensures count { IfOk result (λ n. n ≡ length bytes.now) }
        ensures calls { self.new.calls ≡ one_more self.old.calls }
        ensures listed { self.new.fails ≡ self.old.fails }
        ensures room { self.new.room ≡ self.old.room }
    {
        let call = self.calls;
        self.calls = call.saturating_add(1);
        if self.fails.contains(&call) {
            self.faults = self.faults.saturating_add(1);
            return Err(Failed);
        }
        if !add_within(&mut self.sent, self.room, bytes) {
            self.faults = self.faults.saturating_add(1);
            return Err(Failed);
        }
        Ok(bytes.len())
    }

    fn receive(&mut self, out: &mut [u8]) -> Result<usize, Failed>
        ensures bound { ReadsAtMost result out.new }
        ensures ok { IfOk result
            (λ n. Appends (Some self.old.given) (Some self.new.given) (take n out.new)) }
        ensures err { OnErr result (Some self.new.given ≡ Some self.old.given) }
        ensures ended { IfOk result (λ n. n ≡ 0 → 0 < length out.new →
            IfSome (Some (nat_lt 0 (length self.new.left))) (λ m. m ≡ false)) }
        ensures sent { Some self.new.sent ≡ Some self.old.sent }
        ensures cause { HasCause self.old.faults self.new.faults result }

        // A call fails where its number is listed.
        ensures fails { IsErr result ↔ Contains self.old.fails self.old.calls }
        ensures count { IfOk result (λ n. n ≡ min (length out.new) (length self.old.left)) }
        ensures left { IfOk result (λ n. self.new.left ≡ drop n self.old.left) }
        ensures kept { OnErr result (self.new.left ≡ self.old.left) }
        ensures calls { self.new.calls ≡ one_more self.old.calls }
        ensures listed { self.new.fails ≡ self.old.fails }
        ensures room { self.new.room ≡ self.old.room }
    {
        let call = self.calls;
        self.calls = call.saturating_add(1);
        if self.fails.contains(&call) {
            self.faults = self.faults.saturating_add(1);
            return Err(Failed);
        }
        let (_, left) = self.answers.items().split_at(self.given);
        let count = give_front(left, out);
        self.given += count;
        Ok(count)
    }
}
