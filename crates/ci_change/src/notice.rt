ghost use Rattle.std.specs.Prelude.{◌≡◌, IfOk};

use ci_base::{OutOfMemory, PathText, Seq};
use std::alloc::Global;

/// What happened to a document.
#[derive(Clone, Copy, Debug, PartialEq, Eq)]
pub enum What {
    Changed,
    Deleted,
}

/// Tells what happened to the document at a path. Later notices have greater numbers.
#[derive(Debug, PartialEq, Eq, Drop)]
pub struct Notice {
    pub path: PathText,
    pub seq: Seq,
    pub what: What,
}

impl Notice {
    /// Another notice that equals this one.
    pub fn copy(&self, alloc: Global) -> Result<Notice, OutOfMemory>
        ensures { IfOk result (λ n. n ≡ self.now) }
    {
        Ok(Notice {
            path: self.path.copy(alloc)?,
            seq: self.seq,
            what: self.what,
        })
    }
}
