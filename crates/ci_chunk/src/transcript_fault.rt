ghost use Rattle.std.specs.Prelude.{◌≡◌};
ghost use Rattle.ci_chunk.specs.declared.transcript_fault.TranscriptFault.TheVariants.{OutOfMemory as NoMemory};

use ci_base::OutOfMemory;
use thiserror::Error;

/// Why a piece isn't in a transcript.
#[derive(Clone, Copy, Debug, PartialEq, Eq, Error)]
pub enum TranscriptFault {
    /// With it there were over 65,536 pieces, or over 1,048,576 bytes of text.
    #[error("too long a document")]
    TooLong,
    #[error("out of memory")]
    OutOfMemory,
}

impl From<OutOfMemory> for TranscriptFault {
    ghost from_gives = { λ _ fault. fault ≡ NoMemory };

    fn from(_refused: OutOfMemory) -> TranscriptFault {
        TranscriptFault::OutOfMemory
    }
}
