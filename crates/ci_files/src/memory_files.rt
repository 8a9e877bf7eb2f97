ghost use Rattle.std.specs.Prelude.{◌≡◌, ◌≤◌, ◌↔◌, ◌⊎◌, Contains, IfOk, IfSome, IsErrOf, OnOk, Some, None, length, take};
ghost use Rattle.ci_io.specs.Causes.{Rose, one_more};
ghost use Rattle.ci_files.specs.Files.{contents, file_at};

use crate::memory_parts::{copy_files, copy_front, find_file};
use crate::{FileFault, Files};
use ci_base::{OutOfMemory, Text, Text8};
use std::alloc::Global;
use std::marker::Model;

/// Files in memory, with a list of the reads that are to fail. Contracts see a `FilesState`.
#[derive(Debug, Drop)]
pub struct MemoryFiles {
    files: Vec<(Text, Text8)>,
    fails: Vec<u64>,
    calls: u64,
    faults: u64,
}

impl Model for MemoryFiles {
    ghost use Rattle.ci_files.specs.Memory.{FilesState};

    ghost Value = { FilesState };

    ghost view = { λ f. record {
      files = f.files.items;
      fails = f.fails.items;
      calls = f.calls;
      faults = f.faults;
    } };
}

impl MemoryFiles {
    /// These files, each with its path; of two with one path the first is read. Reads whose
    /// numbers, counted from 0, stand in `fails` are to fail.
    pub fn new(_alloc: Global, files: Vec<(Text, Text8)>, fails: Vec<u64>) -> MemoryFiles
        ensures { result ≡ record { files = files.items; fails = fails.items; calls = 0; faults = 0 } }
    {
        MemoryFiles {
            files,
            fails,
            calls: 0,
            faults: 0,
        }
    }

    /// Other files that equal these.
    pub fn copy(&self, alloc: Global) -> Result<MemoryFiles, OutOfMemory>
        ensures { IfOk result (λ f. f ≡ self.now) }
    {
        Ok(MemoryFiles {
            files: copy_files(alloc, self.files.as_slice())?,
            fails: Vec::from_slice(alloc, self.fails.as_slice())?,
            calls: self.calls,
            faults: self.faults,
        })
    }

    /// How many reads were made.
    pub fn calls(&self) -> u64
        ensures { result ≡ self.now.calls }
    {
        self.calls
    }
}

impl Files for MemoryFiles {
    ghost holds = { λ f. Some f.files };

    ghost faults = { λ f. f.faults };

    fn read(&mut self, alloc: Global, path: &str, max: usize) -> Result<Text8, FileFault>
        ensures bytes { IfOk result (λ bytes. IfSome (Some self.old.files)
            (λ files. bytes ≡ take max (contents files path.now))) }
        ensures bound { IfOk result (λ bytes. length bytes ≤ max) }
        ensures holds { Some self.new.files ≡ Some self.old.files }
        ensures later { self.old.faults ≤ self.new.faults }
        ensures failed { IsErrOf result FileFault.Failed → Rose self.old.faults self.new.faults }
        ensures kept { OnOk result (self.new.faults ≡ self.old.faults) }
        ensures memory { IsErrOf result FileFault.OutOfMemory → self.new.faults ≡ self.old.faults }

        // A read fails where its number is listed, and where the file isn't there.
        ensures fails { IsErrOf result FileFault.Failed ↔
            (Contains self.old.fails self.old.calls ⊎ (file_at self.old.files path.now ≡ None)) }
        ensures calls { self.new.calls ≡ one_more self.old.calls }
        ensures listed { self.new.fails ≡ self.old.fails }
    {
        let call = self.calls;
        self.calls = call.saturating_add(1);
        if self.fails.contains(&call) {
            self.faults = self.faults.saturating_add(1);
            return Err(FileFault::Failed);
        }
        match find_file(self.files.as_slice(), path) {
            None => {
                self.faults = self.faults.saturating_add(1);
                Err(FileFault::Failed)
            }
            Some(bytes) => match copy_front(alloc, bytes.items(), max) {
                Ok(front) => Ok(front),
                Err(_) => Err(FileFault::OutOfMemory),
            },
        }
    }
}
