ghost use Rattle.std.specs.Prelude.{◌≡◌};

use ci_base::OutOfMemory;

/// Why a document wasn't read to its outcome.
#[derive(Clone, Copy, Debug, PartialEq, Eq)]
pub(crate) enum Stop {
    Died,
    OutOfMemory,
}

impl From<OutOfMemory> for Stop {
    ghost use Rattle.ci_link.specs.declared.stop.Stop.TheVariants.{OutOfMemory as NoMemory};

    ghost from_gives = { λ _ e. e ≡ NoMemory };

    fn from(_refused: OutOfMemory) -> Stop {
        Stop::OutOfMemory
    }
}
