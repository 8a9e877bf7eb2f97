ghost use Rattle.std.specs.Prelude.{◌≡◌};
ghost use Rattle.ci_volume.specs.declared.fault.VolumeFault.TheVariants.{DiskFault, OutOfMemory as NoMemory};

use ci_base::OutOfMemory;
use ci_device::Failed;
use std::alloc::{AllocError, AllocFailed};
use thiserror::Error;

/// Why a call on a volume was refused.
#[derive(Clone, Copy, Debug, PartialEq, Eq, Error)]
pub enum VolumeFault {
    /// The disk failed. The device is to be opened again.
    #[error("the disk failed")]
    DiskFault,
    /// The image is no volume, or a chain isn't one.
    #[error("not a catalogue")]
    NotACatalogue,
    #[error("{needed} pages are needed, and {free} are free")]
    VolumeFull { needed: u32, free: u32 },
    #[error("out of memory")]
    OutOfMemory,
}

impl From<Failed> for VolumeFault {
    ghost from_gives = { λ _ fault. fault ≡ DiskFault };

    fn from(_: Failed) -> VolumeFault {
        VolumeFault::DiskFault
    }
}

impl From<OutOfMemory> for VolumeFault {
    ghost from_gives = { λ _ fault. fault ≡ NoMemory };

    fn from(_: OutOfMemory) -> VolumeFault {
        VolumeFault::OutOfMemory
    }
}

impl From<AllocError> for VolumeFault {
    ghost from_gives = { λ _ fault. fault ≡ NoMemory };

    fn from(_: AllocError) -> VolumeFault {
        VolumeFault::OutOfMemory
    }
}

impl<T: Drop> From<AllocFailed<T>> for VolumeFault {
    ghost from_gives = { λ _ fault. fault ≡ NoMemory };

    fn from(_: AllocFailed<T>) -> VolumeFault {
        VolumeFault::OutOfMemory
    }
}
