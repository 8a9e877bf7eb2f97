ghost use Rattle.std.specs.Prelude.{◌≡◌, ◌↔◌, ◌+◌, ◌<◌, ◌≤◌, ◌++◌, [], ◌∷◌, ℕ, true, IfOk, IsErr, OnOk, OnErr, length, map, take, drop, vec_len, vec_capacity};
ghost use Rattle.std.proofs.Common.{refl, inl};
ghost use Rattle.ci_io.specs.Causes.{HasCause, Rose};
ghost use Rattle.ci_device.specs.Images.{Holds, Torn, Follows, NoMore, Only};
ghost use Rattle.ci_device.specs.Memory.{HasRoom, IsLeft, IsLeftSince, IsPicked, charged, only_now};
ghost use Rattle.ci_device.specs.Time.{Elapses};

use crate::platter::Platter;
use crate::{DISK_BYTES, Disk, Failed, Pick};
use ci_base::{OutOfMemory, Text8};
use std::alloc::Global;
use std::marker::Model;
use std::snapshot::Snapshot;

/// A disk in memory, whose calls fail only for want of room. Contracts see a `SureDiskState`.
#[derive(Drop)]
pub struct SureMemoryDisk {
    platter: Platter,
    /// The platter at each earlier moment, which takes no bytes.
    past: Vec<Snapshot<Platter>>,
    faults: u64,
}

impl Model for SureMemoryDisk {
    ghost use Rattle.std.specs.Prelude.{◌*◌, ◌/◌, ◌≤◌, map, vec_len, vec_capacity};
    ghost use Rattle.ci_device.specs.Memory.{SureDiskState};

    ghost Value = { SureDiskState };

    ghost view = { λ d. record {
      platter = d.platter;
      past = map (λ s. s.value) d.past.items;
      faults = d.faults;
    } };

    ghost invariant = { λ d. (d.platter.room / 32 ≤ vec_capacity d.past)
        × (32 * vec_len d.past ≤ d.platter.used) };
}

impl SureMemoryDisk {
    /// A disk with these bytes, all of them synced. A call fails where the disk's length, or the
    /// bytes of all writes with 32 more for each call, would pass `room`.
    pub fn new(alloc: Global, bytes: Text8, room: usize) -> Result<SureMemoryDisk, OutOfMemory>
        ensures { IfOk result (λ d. d ≡ record {
          platter = record { bytes = bytes; synced = bytes; writes = []; room = room; used = 0 };
          past = [];
          faults = 0;
        }) }
    {
        Ok(SureMemoryDisk {
            platter: Platter::new(alloc, bytes.items(), room)?,
            past: Vec::with_capacity(alloc, room / 32)?,
            faults: 0,
        })
    }

    /// The bytes as they read.
    pub fn bytes(&self) -> &[u8]
        ensures { result.now ≡ self.now.platter.bytes }
    {
        self.platter.bytes()
    }

    /// One image that a stop may leave now.
    pub fn left(&self, alloc: Global, pick: Pick) -> Result<Text8, OutOfMemory>
        ensures left { IfOk result (λ image. IsLeft self.now.platter image) }
        ensures picked { IfOk result (λ image. IsPicked self.now.platter pick image) }
    {
        let image = self.platter.left(alloc, pick)?;
        Ok(image)
    }

    /// A call that was to fail: it takes its room and counts.
    pub(crate) fn refuse(&mut self)
        ensures seen { self.new.platter.bytes ≡ self.old.platter.bytes }
        ensures images { NoMore (IsLeft self.old.platter) (IsLeft self.new.platter) }
        ensures moments { Elapses (length self.old.past) (length self.new.past)
            (IsLeftSince self.old) (IsLeftSince self.new) (IsLeft self.new.platter) }
        ensures cause { Rose self.old.faults self.new.faults }
        ensures later { self.old.faults ≤ self.new.faults }
        ensures room { self.new.platter.room ≡ self.old.platter.room }
    {
        if self.platter.has_room(0, 0) {
            self.platter.charge();
        }
        self.faults = self.faults.saturating_add(1);
    }

    /// A write that was to fail: its range is unsynced, where there is room to note it.
    pub(crate) fn tear(&mut self, at: usize, count: usize)
        requires { at + count ≤ DISK_BYTES }
        ensures seen { self.new.platter.bytes ≡ self.old.platter.bytes }
        ensures images { Follows (Torn at count) (IsLeft self.old.platter)
            (IsLeft self.new.platter) }
        ensures moments { Elapses (length self.old.past) (length self.new.past)
            (IsLeftSince self.old) (IsLeftSince self.new) (IsLeft self.new.platter) }
        ensures cause { Rose self.old.faults self.new.faults }
        ensures later { self.old.faults ≤ self.new.faults }
        ensures room { self.new.platter.room ≡ self.old.platter.room }
    {
        self.faults = self.faults.saturating_add(1);
        if !self.platter.has_room(at + count, count) {
            return;
        }
        remember(&mut self.past, &self.platter);
        self.platter.tear(at, count);
    }
}

// Keeps the platter as it is as one of the past.
fn remember(past: &mut Vec<Snapshot<Platter>>, platter: &Platter)
    requires { vec_len past.old < vec_capacity past.old }
    ensures items { map (λ s. s.value) past.new.items
        ≡ map (λ s. s.value) past.old.items ++ platter.now ∷ [] }
    ensures count { vec_len past.new ≡ vec_len past.old + 1 }
    ensures room { vec_capacity past.old ≤ vec_capacity past.new }
{
    match past.push(Snapshot::of(platter)) {
        Ok(()) => {}
        Err(_) => unreachable!(),
    }
}

impl Disk for SureMemoryDisk {
    ghost seen = { λ d. d.platter.bytes };

    ghost may_leave = { λ d. IsLeft d.platter };

    ghost moment = { λ d. length d.past };

    ghost left_since = { λ d. IsLeftSince d };

    ghost faults = { λ d. d.faults };

    ghost honest = { λ _. true };

    ghost seen_may_stay = { λ d. inl refl };

    ghost counts_now = { λ d t image before now. inl now };

    ghost only_now = { λ d image since. only_now d image since };

    fn length(&mut self) -> Result<u64, Failed>
        ensures ok { IfOk result (λ n. n ≡ length self.old.platter.bytes) }
        ensures fails { IsErr result ↔ ¬ HasRoom self.old.platter 0 0 }
        ensures platter { OnOk result (self.new.platter ≡ charged self.old.platter 0) }
        ensures refused { OnErr result (self.new.platter ≡ self.old.platter) }
        ensures moments { Elapses (length self.old.past) (length self.new.past)
            (IsLeftSince self.old) (IsLeftSince self.new) (IsLeft self.new.platter) }
        ensures cause { HasCause self.old.faults self.new.faults result }
    {
        if !self.platter.has_room(0, 0) {
            self.faults = self.faults.saturating_add(1);
            return Err(Failed);
        }
        self.platter.charge();
        Ok(self.platter.bytes().len() as u64)
    }

    fn read_at(&mut self, at: u64, out: &mut [u8]) -> Result<(), Failed>
        requires { at + length out.old ≤ length self.old.platter.bytes }
        ensures ok { OnOk result
            (out.new ≡ take (length out.old) (drop at self.old.platter.bytes)) }
        ensures fails { IsErr result ↔ ¬ HasRoom self.old.platter 0 0 }
        ensures platter { OnOk result (self.new.platter ≡ charged self.old.platter 0) }
        ensures refused { OnErr result (self.new.platter ≡ self.old.platter) }
        ensures moments { Elapses (length self.old.past) (length self.new.past)
            (IsLeftSince self.old) (IsLeftSince self.new) (IsLeft self.new.platter) }
        ensures cause { HasCause self.old.faults self.new.faults result }
    {
        if !self.platter.has_room(0, 0) {
            self.faults = self.faults.saturating_add(1);
            return Err(Failed);
        }
        self.platter.charge();
        let from = at as usize;
        out.copy_from_slice(&self.platter.bytes()[from..from + out.len()]);
        Ok(())
    }

    fn write_at(&mut self, at: u64, bytes: &[u8]) -> Result<(), Failed>
        requires { at + length bytes.now ≤ DISK_BYTES }
        ensures ok { OnOk result (Holds self.new.platter.bytes at bytes.now) }
        ensures others { Torn at (length bytes.now) self.old.platter.bytes
            self.new.platter.bytes }
        ensures fails { IsErr result
            ↔ ¬ HasRoom self.old.platter (at + length bytes.now) (length bytes.now) }
        ensures platter { OnOk result (self.new.platter
            ≡ record (charged self.old.platter (length bytes.now)) {
              bytes = self.new.platter.bytes;
              writes = (at, length bytes.now) ∷ self.old.platter.writes;
            }) }
        ensures refused { OnErr result (self.new.platter ≡ self.old.platter) }
        ensures moments { Elapses (length self.old.past) (length self.new.past)
            (IsLeftSince self.old) (IsLeftSince self.new) (IsLeft self.new.platter) }
        ensures cause { HasCause self.old.faults self.new.faults result }
    {
        let from = at as usize;
        if !self.platter.has_room(from + bytes.len(), bytes.len()) {
            self.faults = self.faults.saturating_add(1);
            return Err(Failed);
        }
        remember(&mut self.past, &self.platter);
        self.platter.write(from, bytes);
        Ok(())
    }

    fn sync(&mut self) -> Result<(), Failed>
        ensures ok { OnOk result (Only self.old.platter.bytes (IsLeft self.new.platter)) }
        ensures fails { IsErr result ↔ ¬ HasRoom self.old.platter 0 0 }
        ensures platter { OnOk result (self.new.platter ≡ record (charged self.old.platter 0) {
          synced = self.old.platter.bytes;
          writes = [];
        }) }
        ensures refused { OnErr result (self.new.platter ≡ self.old.platter) }
        ensures moments { Elapses (length self.old.past) (length self.new.past)
            (IsLeftSince self.old) (IsLeftSince self.new) (IsLeft self.new.platter) }
        ensures cause { HasCause self.old.faults self.new.faults result }
    {
        if !self.platter.has_room(0, 0) {
            self.faults = self.faults.saturating_add(1);
            return Err(Failed);
        }
        remember(&mut self.past, &self.platter);
        self.platter.sync();
        Ok(())
    }
}
