ghost use Rattle.std.specs.Prelude.{◌≡◌, IfOk};
ghost use Rattle.ci_change.specs.Pending as pending;

use crate::Docs;
use ci_base::{OutOfMemory, PathText};
use std::alloc::Global;

/// Documents that are filtered together.
#[derive(Debug, Drop)]
pub struct Batch {
    pub number: u64,
    pub docs: Docs,
}

impl Batch {
    /// Whether a document of the batch has the path.
    pub fn has(&self, path: &PathText) -> bool
        ensures { result ≡ pending.has_path self.now.docs path.now }
    {
        self.docs.items().iter().any(|doc| doc.0 == *path)
    }

    /// Another batch that equals this one.
    pub fn copy(&self, alloc: Global) -> Result<Batch, OutOfMemory>
        ensures { IfOk result (λ b. b ≡ self.now) }
    {
        Ok(Batch {
            number: self.number,
            docs: self.docs.copy(alloc)?,
        })
    }
}
