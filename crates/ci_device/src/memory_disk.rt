ghost use Rattle.std.specs.Prelude.{◌≡◌, ◌↔◌, ◌⊎◌, ◌+◌, ◌<◌, ◌≤◌, [], ℕ, true, IfOk, IsErr, IsTrue, OnOk, length, take, drop};
ghost use Rattle.std.proofs.Common.{refl, inl};
ghost use Rattle.ci_io.specs.Causes.{HasCause, one_more};
ghost use Rattle.ci_device.specs.Images.{Holds, Torn, Follows, NoMore, Only};
ghost use Rattle.ci_device.specs.Memory.{HasRoom, IsCounted, IsLeft, IsLeftSince, IsPicked, IsToFail, charged, only_now};
ghost use Rattle.ci_device.specs.Time.{Elapses};

use crate::{DISK_BYTES, Disk, Failed, Pick, SureMemoryDisk};
use ci_base::{OutOfMemory, Text8};
use std::alloc::Global;
use std::marker::Model;

/// A disk in memory, with a list of the calls that are to fail, and a number of calls behind which
/// it stops. Contracts see a `DiskState`.
#[derive(Drop)]
pub struct MemoryDisk {
    disk: SureMemoryDisk,
    fails: Vec<u64>,
    stop: u64,
    calls: u64,
}

impl Model for MemoryDisk {
    ghost use Rattle.ci_device.specs.Memory.{DiskState};

    ghost Value = { DiskState };

    ghost view = { λ d. record {
      disk = d.disk;
      fails = d.fails.items;
      stop = d.stop;
      calls = d.calls;
    } };
}

impl MemoryDisk {
    /// A disk with these bytes, all of them synced. Calls whose numbers, counted from 0, stand in
    /// `fails` are to fail, and every call behind the first `stop`. A call fails too where the
    /// disk's length, or the bytes of all writes with 32 more for each call, would pass `room`.
    pub fn new(
        alloc: Global,
        bytes: Text8,
        fails: Vec<u64>,
        stop: u64,
        room: usize,
    ) -> Result<MemoryDisk, OutOfMemory>
        ensures { IfOk result (λ d. d ≡ record {
          disk = record {
            platter = record { bytes = bytes; synced = bytes; writes = []; room = room; used = 0 };
            past = [];
            faults = 0;
          };
          fails = fails.items;
          stop = stop;
          calls = 0;
        }) }
    {
        Ok(MemoryDisk {
            disk: SureMemoryDisk::new(alloc, bytes, room)?,
            fails,
            stop,
            calls: 0,
        })
    }

    /// The bytes as they read.
    pub fn bytes(&self) -> &[u8]
        ensures { result.now ≡ self.now.disk.platter.bytes }
    {
        self.disk.bytes()
    }

    /// How many calls were made.
    pub fn calls(&self) -> u64
        ensures { result ≡ self.now.calls }
    {
        self.calls
    }

    /// One image that a stop may leave now.
    pub fn left(&self, alloc: Global, pick: Pick) -> Result<Text8, OutOfMemory>
        ensures left { IfOk result (λ image. IsLeft self.now.disk.platter image) }
        ensures picked { IfOk result (λ image. IsPicked self.now.disk.platter pick image) }
    {
        self.disk.left(alloc, pick)
    }

    // Counts a call, and answers whether it is to fail.
    fn is_to_fail(&mut self) -> bool
        ensures fails { IsTrue result ↔ IsToFail self.old }
        ensures counted { self.new ≡ record self.old { calls = one_more self.old.calls } }
    {
        let call = self.calls;
        self.calls = call.saturating_add(1);
        self.stop <= call || self.fails.contains(&call)
    }
}

impl Disk for MemoryDisk {
    ghost seen = { λ d. d.disk.platter.bytes };

    ghost may_leave = { λ d. IsLeft d.disk.platter };

    ghost moment = { λ d. length d.disk.past };

    ghost left_since = { λ d. IsLeftSince d.disk };

    ghost faults = { λ d. d.disk.faults };

    ghost honest = { λ _. true };

    ghost seen_may_stay = { λ d. inl refl };

    ghost counts_now = { λ d t image before now. inl now };

    ghost only_now = { λ d image since. only_now d.disk image since };

    fn length(&mut self) -> Result<u64, Failed>
        ensures ok { IfOk result (λ n. n ≡ length self.old.disk.platter.bytes) }
        ensures fails { IsErr result ↔ (IsToFail self.old ⊎ ¬ HasRoom self.old.disk.platter 0 0) }
        ensures platter { OnOk result (self.new.disk.platter ≡ charged self.old.disk.platter 0) }
        ensures seen { self.new.disk.platter.bytes ≡ self.old.disk.platter.bytes }
        ensures images { NoMore (IsLeft self.old.disk.platter) (IsLeft self.new.disk.platter) }
        ensures moments { Elapses (length self.old.disk.past) (length self.new.disk.past)
            (IsLeftSince self.old.disk) (IsLeftSince self.new.disk)
            (IsLeft self.new.disk.platter) }
        ensures calls { IsCounted self.old self.new }
        ensures cause { HasCause self.old.disk.faults self.new.disk.faults result }
    {
        if self.is_to_fail() {
            self.disk.refuse();
            return Err(Failed);
        }
        self.disk.length()
    }

    fn read_at(&mut self, at: u64, out: &mut [u8]) -> Result<(), Failed>
        requires { at + length out.old ≤ length self.old.disk.platter.bytes }
        ensures ok { OnOk result
            (out.new ≡ take (length out.old) (drop at self.old.disk.platter.bytes)) }
        ensures fails { IsErr result ↔ (IsToFail self.old ⊎ ¬ HasRoom self.old.disk.platter 0 0) }
        ensures platter { OnOk result (self.new.disk.platter ≡ charged self.old.disk.platter 0) }
        ensures seen { self.new.disk.platter.bytes ≡ self.old.disk.platter.bytes }
        ensures images { NoMore (IsLeft self.old.disk.platter) (IsLeft self.new.disk.platter) }
        ensures moments { Elapses (length self.old.disk.past) (length self.new.disk.past)
            (IsLeftSince self.old.disk) (IsLeftSince self.new.disk)
            (IsLeft self.new.disk.platter) }
        ensures calls { IsCounted self.old self.new }
        ensures cause { HasCause self.old.disk.faults self.new.disk.faults result }
    {
        if self.is_to_fail() {
            self.disk.refuse();
            return Err(Failed);
        }
        self.disk.read_at(at, out)
    }

    fn write_at(&mut self, at: u64, bytes: &[u8]) -> Result<(), Failed>
        requires { at + length bytes.now ≤ DISK_BYTES }
        ensures ok { OnOk result (Holds self.new.disk.platter.bytes at bytes.now) }
        ensures others { Torn at (length bytes.now) self.old.disk.platter.bytes
            self.new.disk.platter.bytes }
        ensures fails { IsErr result ↔ (IsToFail self.old
            ⊎ ¬ HasRoom self.old.disk.platter (at + length bytes.now) (length bytes.now)) }
        ensures images { Follows (Torn at (length bytes.now)) (IsLeft self.old.disk.platter)
            (IsLeft self.new.disk.platter) }
        ensures moments { Elapses (length self.old.disk.past) (length self.new.disk.past)
            (IsLeftSince self.old.disk) (IsLeftSince self.new.disk)
            (IsLeft self.new.disk.platter) }
        ensures calls { IsCounted self.old self.new }
        ensures cause { HasCause self.old.disk.faults self.new.disk.faults result }
    {
        if self.is_to_fail() {
            self.disk.tear(at as usize, bytes.len());
            return Err(Failed);
        }
        self.disk.write_at(at, bytes)
    }

    fn sync(&mut self) -> Result<(), Failed>
        ensures ok { OnOk result (Only self.old.disk.platter.bytes
            (IsLeft self.new.disk.platter)) }
        ensures fails { IsErr result ↔ (IsToFail self.old ⊎ ¬ HasRoom self.old.disk.platter 0 0) }
        ensures seen { self.new.disk.platter.bytes ≡ self.old.disk.platter.bytes }
        ensures images { NoMore (IsLeft self.old.disk.platter) (IsLeft self.new.disk.platter) }
        ensures moments { Elapses (length self.old.disk.past) (length self.new.disk.past)
            (IsLeftSince self.old.disk) (IsLeftSince self.new.disk)
            (IsLeft self.new.disk.platter) }
        ensures calls { IsCounted self.old self.new }
        ensures cause { HasCause self.old.disk.faults self.new.disk.faults result }
    {
        if self.is_to_fail() {
            self.disk.refuse();
            return Err(Failed);
        }
        self.disk.sync()
    }
}
