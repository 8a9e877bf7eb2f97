ghost use Rattle.std.specs.Prelude.{◌≡◌, ◌↔◌, ◌+◌, ◌<◌, ◌≤◌, ◌++◌, [], ◌∷◌, ℕ, IfOk, OnOk, IsTrue, length, reverse, slice_index, vec_len, vec_capacity};
ghost use Rattle.ci_device.specs.Images.{Holds, Torn};
ghost use Rattle.ci_device.specs.Memory.{HasRoom, FilledFrom, Fills, IsPicked, call_room, charged};

use crate::Pick;
use ci_base::{OutOfMemory, Text8};
use std::alloc::Global;
use std::marker::Model;

/// What each call takes of a memory disk's room, beside the bytes that it writes.
pub(crate) const CALL_ROOM: usize = 32;

/// The bytes of a disk in memory, what was synced of them, and the ranges written since. It has room
/// for them from the start, so that no call takes memory. Contracts see a `PlatterState`.
#[derive(Drop)]
pub(crate) struct Platter {
    bytes: Vec<u8>,
    synced: Vec<u8>,
    /// The oldest first.
    writes: Vec<(usize, usize)>,
    room: usize,
    used: usize,
}

impl Model for Platter {
    ghost use Rattle.std.specs.Prelude.{◌*◌, ◌/◌, ◌≤◌, reverse, vec_len, vec_capacity};
    ghost use Rattle.ci_device.specs.Memory.{PlatterState};

    ghost Value = { PlatterState };

    ghost view = { λ p. record {
      bytes = p.bytes.items;
      synced = p.synced.items;
      writes = reverse p.writes.items;
      room = p.room;
      used = p.used;
    } };

    ghost invariant = { λ p. (p.room ≤ vec_capacity p.bytes) × (p.room ≤ vec_capacity p.synced)
        × (p.room / 32 ≤ vec_capacity p.writes) × (32 * vec_len p.writes ≤ p.used)
        × (p.used ≤ p.room) };
}

impl Platter {
    /// These bytes, all of them synced.
    pub fn new(alloc: Global, bytes: &[u8], room: usize) -> Result<Platter, OutOfMemory>
        ensures { IfOk result (λ p. p ≡ record {
          bytes = bytes.now;
          synced = bytes.now;
          writes = [];
          room = room;
          used = 0;
        }) }
    {
        Ok(Platter {
            bytes: copy_with_room(alloc, bytes, room)?,
            synced: copy_with_room(alloc, bytes, room)?,
            writes: Vec::with_capacity(alloc, room / CALL_ROOM)?,
            room,
            used: 0,
        })
    }

    pub fn bytes(&self) -> &[u8]
        ensures { result.now ≡ self.now.bytes }
    {
        self.bytes.as_slice()
    }

    /// Whether there is room for a call that writes so many bytes up to this place.
    pub fn has_room(&self, end: usize, count: usize) -> bool
        ensures { IsTrue result ↔ HasRoom self.now end count }
    {
        let len = self.bytes.len().max(end);
        len <= self.room
            && self.room - self.used >= CALL_ROOM
            && self.room - self.used - CALL_ROOM >= count
    }

    /// A call that writes nothing takes its room.
    pub fn charge(&mut self)
        requires { HasRoom self.old 0 0 }
        ensures { self.new ≡ charged self.old 0 }
    {
        self.used += CALL_ROOM;
    }

    /// A write that fails: its range is unsynced from now on.
    pub fn tear(&mut self, at: usize, count: usize)
        requires { HasRoom self.old (at + count) count }
        ensures { self.new ≡ record (charged self.old count) {
          writes = (at, count) ∷ self.old.writes;
        } }
    {
        self.used += CALL_ROOM;
        self.used += count;
        note(&mut self.writes, at, count);
    }

    pub fn write(&mut self, at: usize, bytes: &[u8])
        requires { HasRoom self.old (at + length bytes.now) (length bytes.now) }
        ensures ok { Holds self.new.bytes at bytes.now }
        ensures others { Torn at (length bytes.now) self.old.bytes self.new.bytes }
        ensures writes { self.new ≡ record (charged self.old (length bytes.now)) {
          bytes = self.new.bytes;
          writes = (at, length bytes.now) ∷ self.old.writes;
        } }
    {
        self.used += CALL_ROOM + bytes.len();
        note(&mut self.writes, at, bytes.len());
        overwrite(&mut self.bytes, at, bytes);
    }

    pub fn sync(&mut self)
        requires { HasRoom self.old 0 0 }
        ensures { self.new ≡ record (charged self.old 0) { synced = self.old.bytes; writes = [] } }
    {
        self.used += CALL_ROOM;
        replace(&mut self.synced, &self.bytes);
        self.writes.clear();
    }

    /// One image that a stop may leave.
    pub fn left(&self, alloc: Global, pick: Pick) -> Result<Text8, OutOfMemory>
        ensures { IfOk result (λ image. IsPicked self.now pick image) }
    {
        match pick {
            Pick::Old => Text8::of(alloc, &self.synced),
            Pick::New => Text8::of(alloc, &self.bytes),
            Pick::Filled(byte) => {
                let image = fill_all(alloc, &self.synced, &self.writes, byte)?;
                Ok(Text8::from(image))
            }
        }
    }
}

// The bytes with each of these ranges filled with one byte.
fn fill_all(
    alloc: Global,
    synced: &[u8],
    writes: &[(usize, usize)],
    byte: u8,
) -> Result<Vec<u8>, OutOfMemory>
    ensures { IfOk result (λ v. FilledFrom byte synced.now (reverse writes.now) v.items) }
{
    let mut image = Vec::from_slice(alloc, synced)?;
    for write in writes {
        fill_range(&mut image, write.0, write.1, byte)?;
    }
    Ok(image)
}

fn fill_range(image: &mut Vec<u8>, at: usize, count: usize, byte: u8) -> Result<(), OutOfMemory>
    ensures { OnOk result (Fills at count byte image.old.items image.new.items) }
{
    let end = at.checked_add(count).ok_or(OutOfMemory)?;
    if end > image.len() {
        image.resize(end, byte)?;
    }
    image[at..end].fill(byte);
    Ok(())
}

fn copy_with_room(alloc: Global, bytes: &[u8], room: usize) -> Result<Vec<u8>, OutOfMemory>
    ensures items { IfOk result (λ v. v.items ≡ bytes.now) }
    ensures room { IfOk result (λ v. room ≤ vec_capacity v) }
{
    let mut copied = Vec::with_capacity(alloc, room)?;
    copied.extend_from_slice(bytes)?;
    Ok(copied)
}

fn note(writes: &mut Vec<(usize, usize)>, at: usize, count: usize)
    requires { vec_len writes.old < vec_capacity writes.old }
    ensures items { writes.new.items ≡ writes.old.items ++ (at, count) ∷ [] }
    ensures count { vec_len writes.new ≡ vec_len writes.old + 1 }
    ensures room { vec_capacity writes.old ≤ vec_capacity writes.new }
{
    match writes.push((at, count)) {
        Ok(()) => {}
        Err(_) => unreachable!(),
    }
}

fn replace(kept: &mut Vec<u8>, bytes: &[u8])
    requires { length bytes.now ≤ vec_capacity kept.old }
    ensures items { kept.new.items ≡ bytes.now }
    ensures room { vec_capacity kept.old ≤ vec_capacity kept.new }
{
    kept.clear();
    match kept.extend_from_slice(bytes) {
        Ok(()) => {}
        Err(_) => unreachable!(),
    }
}

fn overwrite(kept: &mut Vec<u8>, at: usize, bytes: &[u8])
    requires { at + length bytes.now ≤ vec_capacity kept.old }
    ensures written { Holds kept.new.items at bytes.now }
    ensures others { Torn at (length bytes.now) kept.old.items kept.new.items }
    ensures room { vec_capacity kept.old ≤ vec_capacity kept.new }
{
    let end = at + bytes.len();
    if end > kept.len() {
        lengthen(kept, end);
    }
    kept[at..end].copy_from_slice(bytes);
}

fn lengthen(kept: &mut Vec<u8>, len: usize)
    requires within { len ≤ vec_capacity kept.old }
    requires longer { vec_len kept.old ≤ len }
    ensures len { vec_len kept.new ≡ len }
    ensures others { (i : ℕ) → i < length kept.old.items
        → slice_index kept.new.items i ≡ slice_index kept.old.items i }
    ensures room { vec_capacity kept.old ≤ vec_capacity kept.new }
{
    match kept.resize(len, 0) {
        Ok(()) => {}
        Err(_) => unreachable!(),
    }
}
