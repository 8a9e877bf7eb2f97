ghost use Rattle.std.specs.Prelude.{◌≡◌};
ghost use Rattle.ci_paths.specs.declared.number_faults.NumberFault.TheVariants.{OutOfMemory as NoNumber};
ghost use Rattle.ci_paths.specs.declared.number_faults.AdoptFault.TheVariants.{OutOfMemory as NotAdopted};

use ci_base::OutOfMemory;
use thiserror::Error;

/// Why a path was given no number.
#[derive(Clone, Copy, Debug, PartialEq, Eq, Error)]
pub enum NumberFault {
    /// The path is new, and as many paths as may be are numbered.
    #[error("too many documents")]
    TooManyDocuments,
    #[error("out of memory")]
    OutOfMemory,
}

impl From<OutOfMemory> for NumberFault {
    ghost from_gives = { λ _ fault. fault ≡ NoNumber };

    fn from(_refused: OutOfMemory) -> NumberFault {
        NumberFault::OutOfMemory
    }
}

/// Why a path was not given the number that it brought.
#[derive(Clone, Copy, Debug, PartialEq, Eq, Error)]
pub enum AdoptFault {
    /// The path has another number, or the number another path.
    #[error("a number or a path that is taken")]
    Clash,
    #[error("out of memory")]
    OutOfMemory,
}

impl From<OutOfMemory> for AdoptFault {
    ghost from_gives = { λ _ fault. fault ≡ NotAdopted };

    fn from(_refused: OutOfMemory) -> AdoptFault {
        AdoptFault::OutOfMemory
    }
}
