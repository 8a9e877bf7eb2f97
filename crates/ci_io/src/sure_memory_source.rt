ghost use Rattle.std.specs.Prelude.{◌≡◌, IsOk, IfOk, Some, length, min};
ghost use Rattle.std.specs.Io.{ReadsAtMost};
ghost use Rattle.std.specs.Io.KnownBytes.{ReadConsumes};
ghost use Rattle.ci_io.specs.Causes.{HasCause};

use crate::memory_parts::give_front;
use crate::{Failed, Source};
use ci_base::{OutOfMemory, Text8};
use std::alloc::Global;
use std::marker::Model;

/// A source of bytes in memory, of which no call fails. Contracts see the bytes still to come.
#[derive(Debug, Drop)]
pub struct SureMemorySource {
    bytes: Text8,
    given: usize,
}

impl Model for SureMemorySource {
    ghost use Rattle.std.specs.Prelude.{List, ℕ, drop, length, ◌≤◌};

    ghost Value = { List ℕ };

    ghost view = { λ s. drop s.given s.bytes };

    ghost invariant = { λ s. s.given ≤ length s.bytes };
}

impl SureMemorySource {
    /// A source of these bytes.
    pub fn new(_alloc: Global, bytes: Text8) -> SureMemorySource
        ensures { result ≡ bytes }
    {
        SureMemorySource { bytes, given: 0 }
    }

    /// Another source that equals this one.
    pub fn copy(&self, alloc: Global) -> Result<SureMemorySource, OutOfMemory>
        ensures { IfOk result (λ s. s ≡ self.now) }
    {
        Ok(SureMemorySource {
            bytes: self.bytes.copy(alloc)?,
            given: self.given,
        })
    }
}

impl Source for SureMemorySource {
    ghost left = { λ s. Some s };

    ghost faults = { λ _. 0 };

    fn take(&mut self, out: &mut [u8]) -> Result<usize, Failed>
        ensures bound { ReadsAtMost result out.new }
        ensures bytes { ReadConsumes (Some self.old) (Some self.new) result out.new }
        ensures cause { HasCause 0 0 result }
        ensures ok { IsOk result }
        ensures count { IfOk result (λ n. n ≡ min (length out.new) (length self.old)) }
    {
        let count = give_front(&self.bytes.items()[self.given..], out);
        self.given += count;
        Ok(count)
    }
}
