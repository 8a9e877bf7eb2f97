ghost use Rattle.std.specs.Prelude.{◌≡◌, ◌↔◌, IsErr, IfOk, Some, Contains, length, min};
ghost use Rattle.std.specs.Io.{ReadsAtMost};
ghost use Rattle.std.specs.Io.KnownBytes.{ReadConsumes};
ghost use Rattle.ci_io.specs.Causes.{HasCause, one_more};

use crate::memory_parts::give_front;
use crate::{Failed, Source};
use ci_base::{OutOfMemory, Text8};
use std::alloc::Global;
use std::marker::Model;

/// A source of bytes in memory, with a list of the calls that are to fail. Contracts see a
/// `SourceState`.
#[derive(Debug, Drop)]
pub struct MemorySource {
    bytes: Text8,
    given: usize,
    fails: Vec<u64>,
    calls: u64,
    faults: u64,
}

impl Model for MemorySource {
    ghost use Rattle.std.specs.Prelude.{drop, length, ◌≤◌};
    ghost use Rattle.ci_io.specs.Memory.{SourceState};

    ghost Value = { SourceState };

    ghost view = { λ s. record {
      left = drop s.given s.bytes;
      fails = s.fails.items;
      calls = s.calls;
      faults = s.faults;
    } };

    ghost invariant = { λ s. s.given ≤ length s.bytes };
}

impl MemorySource {
    /// A source of these bytes. Calls whose numbers, counted from 0, stand in `fails` are to fail.
    pub fn new(_alloc: Global, bytes: Text8, fails: Vec<u64>) -> MemorySource
        ensures { result ≡ record { left = bytes; fails = fails.items; calls = 0; faults = 0 } }
    {
        MemorySource {
            bytes,
            given: 0,
            fails,
            calls: 0,
            faults: 0,
        }
    }

    /// Another source that equals this one.
    pub fn copy(&self, alloc: Global) -> Result<MemorySource, OutOfMemory>
        ensures { IfOk result (λ s. s ≡ self.now) }
    {
        Ok(MemorySource {
            bytes: self.bytes.copy(alloc)?,
            given: self.given,
            fails: Vec::from_slice(alloc, self.fails.as_slice())?,
            calls: self.calls,
            faults: self.faults,
        })
    }

    /// How many calls of `take` were made.
    pub fn calls(&self) -> u64
        ensures { result ≡ self.now.calls }
    {
        self.calls
    }
}

impl Source for MemorySource {
    ghost left = { λ s. Some s.left };

    ghost faults = { λ s. s.faults };

    fn take(&mut self, out: &mut [u8]) -> Result<usize, Failed>
        ensures bound { ReadsAtMost result out.new }
        ensures bytes { ReadConsumes (Some self.old.left) (Some self.new.left) result out.new }
        ensures cause { HasCause self.old.faults self.new.faults result }

        // A call fails where its number is listed.
        ensures fails { IsErr result ↔ Contains self.old.fails self.old.calls }
        ensures count { IfOk result (λ n. n ≡ min (length out.new) (length self.old.left)) }
        ensures calls { self.new.calls ≡ one_more self.old.calls }
        ensures listed { self.new.fails ≡ self.old.fails }
    {
        let call = self.calls;
        self.calls = call.saturating_add(1);
        if self.fails.contains(&call) {
            self.faults = self.faults.saturating_add(1);
            return Err(Failed);
        }
        let count = give_front(&self.bytes.items()[self.given..], out);
        self.given += count;
        Ok(count)
    }
}
