ghost use Rattle.std.specs.Prelude.{◌≡◌, ◌≤◌, ℕ, List, Option, IfOk, IfSome, IsErrOf, OnOk, length, take};
ghost use Rattle.ci_io.specs.Causes.{Rose};
ghost use Rattle.ci_files.specs.Files.{File, contents};

use ci_base::Text8;
use std::alloc::Global;
use thiserror::Error;

/// Files that are read by path.
pub trait Files {
    /// The files that it holds, where it tells them.
    ghost holds: { Self → Option (List File) };

    /// How many reads failed.
    ghost faults: { Self → ℕ };

    /// The first bytes of the file of this path: all of them where it has no more than `max`. A
    /// read changes no file.
    fn read(&mut self, alloc: Global, path: &str, max: usize) -> Result<Text8, FileFault>
        ensures bytes { IfOk result (λ bytes. IfSome (holds self.old)
            (λ files. bytes ≡ take max (contents files path.now))) }
        ensures bound { IfOk result (λ bytes. length bytes ≤ max) }
        ensures holds { holds self.new ≡ holds self.old }
        ensures later { faults self.old ≤ faults self.new }
        ensures failed { IsErrOf result FileFault.Failed → Rose (faults self.old) (faults self.new) }
        ensures kept { OnOk result (faults self.new ≡ faults self.old) }
        ensures memory { IsErrOf result FileFault.OutOfMemory →
            faults self.new ≡ faults self.old };
}

/// Why a file wasn't read.
#[derive(Clone, Copy, Debug, PartialEq, Eq, Error)]
pub enum FileFault {
    /// The file isn't there, or reading it failed.
    #[error("a file was not read")]
    Failed,
    #[error("out of memory")]
    OutOfMemory,
}
