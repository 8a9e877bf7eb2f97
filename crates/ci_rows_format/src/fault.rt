ghost use Rattle.std.specs.Prelude.{◌≡◌};

use ci_base::OutOfMemory;
use std::alloc::{AllocError, AllocFailed};
use thiserror::Error;

/// Why bytes were not read as rows.
#[derive(Clone, Copy, Debug, PartialEq, Eq, Error)]
pub enum RowsFault {
    #[error("no rows")]
    BadRows,
    #[error("out of memory")]
    OutOfMemory,
}

impl From<OutOfMemory> for RowsFault {
    ghost use Rattle.ci_rows_format.specs.declared.fault.RowsFault.TheVariants as faults;

    ghost from_gives = { λ _ e. e ≡ faults.OutOfMemory };

    fn from(_refused: OutOfMemory) -> RowsFault {
        RowsFault::OutOfMemory
    }
}

impl From<AllocError> for RowsFault {
    ghost use Rattle.ci_rows_format.specs.declared.fault.RowsFault.TheVariants as faults;

    ghost from_gives = { λ _ e. e ≡ faults.OutOfMemory };

    fn from(_refused: AllocError) -> RowsFault {
        RowsFault::OutOfMemory
    }
}

impl<T: Drop> From<AllocFailed<T>> for RowsFault {
    ghost use Rattle.ci_rows_format.specs.declared.fault.RowsFault.TheVariants as faults;

    ghost from_gives = { λ _ e. e ≡ faults.OutOfMemory };

    fn from(_refused: AllocFailed<T>) -> RowsFault {
        RowsFault::OutOfMemory
    }
}
