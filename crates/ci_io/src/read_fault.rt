ghost use Rattle.std.specs.Prelude.{◌≡◌};
ghost use Rattle.ci_io.specs.declared.read_fault.ReadFault.TheVariants.{Failed as SourceFailed, OutOfMemory as NoMemory};

use crate::Failed;
use ci_base::OutOfMemory;
use thiserror::Error;

/// Why no line was read.
#[derive(Clone, Copy, Debug, PartialEq, Eq, Error)]
pub enum ReadFault {
    /// The source failed.
    #[error("the source failed")]
    Failed,
    /// The line has `ENDLESS_BYTES` bytes without a line feed.
    #[error("a line without an end")]
    Endless,
    #[error("out of memory")]
    OutOfMemory,
}

impl From<Failed> for ReadFault {
    ghost from_gives = { λ _ fault. fault ≡ SourceFailed };

    fn from(_failed: Failed) -> ReadFault {
        ReadFault::Failed
    }
}

impl From<OutOfMemory> for ReadFault {
    ghost from_gives = { λ _ fault. fault ≡ NoMemory };

    fn from(_refused: OutOfMemory) -> ReadFault {
        ReadFault::OutOfMemory
    }
}
