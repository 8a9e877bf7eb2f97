ghost use Rattle.std.specs.Prelude.{◌≡◌};
ghost use Rattle.ci_book.specs.Faults.{fault_of_number};
ghost use Rattle.ci_book.specs.declared.core_fault.CoreFault.TheVariants.{OutOfMemory as NoMemory};

use ci_base::OutOfMemory;
use ci_paths::NumberFault;
use thiserror::Error;

/// Why a step was refused. After `Ended` the causes are tried in this order.
#[derive(Clone, Copy, Debug, PartialEq, Eq, Error)]
pub enum CoreFault {
    /// The path is new, and as many paths are numbered as may be.
    #[error("as many documents were noted as the catalogue takes")]
    TooManyDocuments,
    /// The journal's bytes, `used`, and those of the step's event, `more`, are above the setting.
    #[error("the journal is full: {used} bytes are used, and {more} more are wanted")]
    JournalFull { used: u64, more: u64 },
    #[error("out of memory")]
    OutOfMemory,
    /// The sink failed.
    #[error("the reply could not be written")]
    WriteFault,
    /// An earlier step was refused.
    #[error("an earlier step was refused")]
    Ended,
}

impl From<OutOfMemory> for CoreFault {
    ghost from_gives = { λ _ fault. fault ≡ NoMemory };

    fn from(_refused: OutOfMemory) -> CoreFault {
        CoreFault::OutOfMemory
    }
}

impl From<NumberFault> for CoreFault {
    ghost from_gives = { λ refused fault. fault ≡ fault_of_number refused };

    fn from(refused: NumberFault) -> CoreFault {
        match refused {
            NumberFault::TooManyDocuments => CoreFault::TooManyDocuments,
            NumberFault::OutOfMemory => CoreFault::OutOfMemory,
        }
    }
}
