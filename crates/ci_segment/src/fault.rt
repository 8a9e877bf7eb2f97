ghost use Rattle.std.specs.Prelude.{◌≡◌};

use ci_base::OutOfMemory;
use std::alloc::{AllocError, AllocFailed};
use thiserror::Error;

/// Why bytes were not read as a segment, or as a part of one.
#[derive(Clone, Copy, Debug, PartialEq, Eq, Error)]
pub enum SegmentFault {
    #[error("no segment")]
    BadSegment,
    #[error("out of memory")]
    OutOfMemory,
}

impl From<OutOfMemory> for SegmentFault {
    ghost use Rattle.ci_segment.specs.declared.fault.SegmentFault.TheVariants as faults;

    ghost from_gives = { λ _ e. e ≡ faults.OutOfMemory };

    fn from(_refused: OutOfMemory) -> SegmentFault {
        SegmentFault::OutOfMemory
    }
}

impl From<AllocError> for SegmentFault {
    ghost use Rattle.ci_segment.specs.declared.fault.SegmentFault.TheVariants as faults;

    ghost from_gives = { λ _ e. e ≡ faults.OutOfMemory };

    fn from(_refused: AllocError) -> SegmentFault {
        SegmentFault::OutOfMemory
    }
}

impl<T: Drop> From<AllocFailed<T>> for SegmentFault {
    ghost use Rattle.ci_segment.specs.declared.fault.SegmentFault.TheVariants as faults;

    ghost from_gives = { λ _ e. e ≡ faults.OutOfMemory };

    fn from(_refused: AllocFailed<T>) -> SegmentFault {
        SegmentFault::OutOfMemory
    }
}
