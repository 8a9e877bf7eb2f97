ghost use Rattle.std.specs.Prelude.{◌≡◌, ◌≤◌, IfOk, IfSome, IsErrOf, Some, length, take};
ghost use Rattle.ci_files.specs.Files.{contents};

use crate::memory_parts::{copy_files, copy_front, find_file};
use crate::{FileFault, Files};
use ci_base::{OutOfMemory, Text, Text8};
use std::alloc::Global;
use std::marker::Model;

/// Files in memory, of which no read fails: a file that isn't there has no bytes. Contracts see the
/// list of files.
#[derive(Debug, Drop)]
pub struct SureMemoryFiles {
    files: Vec<(Text, Text8)>,
}

impl Model for SureMemoryFiles {
    ghost use Rattle.std.specs.Prelude.{List};
    ghost use Rattle.ci_files.specs.Files.{File};

    ghost Value = { List File };

    ghost view = { λ f. f.files.items };
}

impl SureMemoryFiles {
    /// These files, each with its path; of two with one path the first is read.
    pub fn new(_alloc: Global, files: Vec<(Text, Text8)>) -> SureMemoryFiles
        ensures { result ≡ files.items }
    {
        SureMemoryFiles { files }
    }

    /// Other files that equal these.
    pub fn copy(&self, alloc: Global) -> Result<SureMemoryFiles, OutOfMemory>
        ensures { IfOk result (λ f. f ≡ self.now) }
    {
        Ok(SureMemoryFiles {
            files: copy_files(alloc, self.files.as_slice())?,
        })
    }
}

impl Files for SureMemoryFiles {
    ghost holds = { λ f. Some f };

    ghost faults = { λ _. 0 };

    fn read(&mut self, alloc: Global, path: &str, max: usize) -> Result<Text8, FileFault>
        ensures bytes { IfOk result (λ bytes. IfSome (Some self.old)
            (λ files. bytes ≡ take max (contents files path.now))) }
        ensures bound { IfOk result (λ bytes. length bytes ≤ max) }
        ensures holds { Some self.new ≡ Some self.old }
        ensures sure { IsErrOf result FileFault.Failed → ⊥ }
    {
        let read = match find_file(self.files.as_slice(), path) {
            None => Ok(Text8::new(alloc)),
            Some(bytes) => copy_front(alloc, bytes.items(), max),
        };
        match read {
            Ok(front) => Ok(front),
            Err(_) => Err(FileFault::OutOfMemory),
        }
    }
}
