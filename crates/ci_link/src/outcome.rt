ghost use Rattle.std.specs.Prelude.{◌≡◌, IfOk};

use ci_base::OutOfMemory;
use ci_chunk::Outcomes;
use std::alloc::Global;

/// What a talk came to.
#[derive(Debug, Drop)]
pub enum Talk {
    /// Each document of the batch has its outcome.
    Finished(Outcomes),
    /// The talk ended within the document at this place of the batch.
    Died { charged: u32 },
}

impl Talk {
    /// Another talk that came to the same.
    pub fn copy(&self, alloc: Global) -> Result<Talk, OutOfMemory>
        ensures { IfOk result (λ t. t ≡ self.now) }
    {
        match self {
            Talk::Finished(outcomes) => Ok(Talk::Finished(outcomes.copy(alloc)?)),
            Talk::Died { charged } => Ok(Talk::Died { charged: *charged }),
        }
    }
}
