ghost use Rattle.std.specs.Prelude.{◌≡◌, ◌+◌, ◌-◌, ◌<◌, ◌≤◌, [], ℕ, List, length, take, drop, IfOk, OnErr, vec_len};
ghost use Rattle.std.specs.Io.KnownBytes.{IsAtEnd, Keeps, ReadConsumes};
ghost use Rattle.ci_io.specs.Causes.{HasCause};
ghost use Rattle.ci_io.specs.Reading.{Refills};

use crate::{Failed, LINE_BYTES, Source};
use ci_base::OutOfMemory;
use std::alloc::Global;
use std::marker::Model;

/// Room for the longest line and its line feed.
pub(crate) const BUFFER_BYTES: usize = LINE_BYTES + 1;

/// Bytes that were taken from a source and not handed out yet. Contracts see their list.
#[derive(Drop)]
pub(crate) struct LineBuffer {
    bytes: Vec<u8>,
    from: usize,
    to: usize,
}

impl Model for LineBuffer {
    ghost use Rattle.std.specs.Prelude.{◌≡◌, ◌≤◌, List, ℕ, drop, take, vec_len};
    ghost use Rattle.ci_io.specs.declared.line_buffer.TheConstants.{BUFFER_BYTES};

    ghost Value = { List ℕ };

    ghost view = { λ b. drop b.from (take b.to b.bytes.items) };

    ghost invariant = { λ b. (b.from ≤ b.to) × (b.to ≤ vec_len b.bytes)
        × (vec_len b.bytes ≡ BUFFER_BYTES) };
}

impl LineBuffer {
    pub fn new(alloc: Global) -> Result<LineBuffer, OutOfMemory>
        ensures { IfOk result (λ b. b ≡ []) }
    {
        Ok(LineBuffer {
            bytes: room_for(alloc, BUFFER_BYTES)?,
            from: 0,
            to: 0,
        })
    }

    pub fn held(&self) -> &[u8]
        ensures items { result.now ≡ self.now }
        ensures bound { length self.now ≤ BUFFER_BYTES }
    {
        &self.bytes[self.from..self.to]
    }

    /// Hands the first bytes out.
    pub fn release(&mut self, count: usize)
        requires { count ≤ length self.old }
        ensures { self.new ≡ drop count self.old }
    {
        self.from += count;
    }

    /// Takes at most so many bytes from the source, and holds them behind the others. It answers
    /// how many it took: 0 is the source's end.
    pub fn refill<S: Source>(&mut self, source: &mut S, most: usize) -> Result<usize, Failed>
        requires room { length self.old < BUFFER_BYTES }
        requires some { 0 < most }
        ensures ok { IfOk result
            (Refills self.old self.new (S.left source.old) (S.left source.new)) }
        ensures bound { IfOk result (λ n. n ≤ most) }
        ensures err { OnErr result (self.new ≡ self.old) }
        ensures kept { OnErr result (Keeps (S.left source.old) (S.left source.new)) }
        ensures cause { HasCause (S.faults source.old) (S.faults source.new) result }
    {
        let (from, to) = make_room(&mut self.bytes, self.from, self.to);
        self.from = from;
        self.to = to;
        let count = take_behind(source, &mut self.bytes, self.to, most)?;
        self.to += count;
        Ok(count)
    }
}

fn room_for(alloc: Global, count: usize) -> Result<Vec<u8>, OutOfMemory>
    ensures { IfOk result (λ v. vec_len v ≡ count) }
{
    Ok(vec![in alloc; 0; count]?)
}

// Where the bytes from `from` to `to` stand, moved to the front if there is no room behind them.
fn make_room(bytes: &mut [u8], from: usize, to: usize) -> (usize, usize)
    requires ordered { from ≤ to }
    requires within { to ≤ length bytes.old }
    requires room { to - from < length bytes.old }
    ensures held { drop result.0 (take result.1 bytes.new) ≡ drop from (take to bytes.old) }
    ensures stays_ordered { result.0 ≤ result.1 }
    ensures made { result.1 < length bytes.new }
{
    if to < bytes.len() {
        return (from, to);
    }
    bytes.rotate_left(from);
    (0, to - from)
}

// Takes at most so many bytes from the source into the list, from place `to` on.
fn take_behind<S: Source>(
    source: &mut S,
    bytes: &mut [u8],
    to: usize,
    most: usize,
) -> Result<usize, Failed>
    requires within { to < length bytes.old }
    requires some { 0 < most }
    ensures front { take to bytes.new ≡ take to bytes.old }
    ensures bound { IfOk result (λ n. to + n ≤ length bytes.new) }
    ensures most { IfOk result (λ n. n ≤ most) }
    ensures bytes { ReadConsumes (S.left source.old) (S.left source.new) result
        (drop to bytes.new) }
    ensures ended { IfOk result (λ n. n ≡ 0 → IsAtEnd (S.left source.new)) }
    ensures cause { HasCause (S.faults source.old) (S.faults source.new) result }
{
    let room = most.min(bytes.len() - to);
    source.take(&mut bytes[to..to + room])
}
