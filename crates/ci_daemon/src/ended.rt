ghost use Rattle.std.specs.Prelude.{◌≡◌};
ghost use Rattle.ci_daemon.specs.Exit.{exit_code};

use ci_base::OutOfMemory;

/// Why a service ended.
#[derive(Clone, Copy, Debug, PartialEq, Eq)]
pub enum Ended {
    /// The source ended between two frames.
    Quiet,
    /// The source failed.
    ReadFault,
    /// The sink failed.
    WriteFault,
    /// The bytes begin no frame, or end within one, or an answer came.
    BadFrame,
    /// 4,294,967,296 calls were answered.
    Spent,
    OutOfMemory,
}

impl Ended {
    /// The exit status of a program that ends so.
    pub fn exit_code(self) -> u8
        ensures { result ≡ exit_code self }
    {
        match self {
            Ended::Quiet => 0,
            Ended::ReadFault => 3,
            Ended::WriteFault => 4,
            Ended::BadFrame => 5,
            Ended::Spent => 6,
            Ended::OutOfMemory => 10,
        }
    }
}

impl From<OutOfMemory> for Ended {
    ghost use Rattle.ci_daemon.specs.declared.ended.Ended.TheVariants.{OutOfMemory as NoMemory};

    ghost from_gives = { λ _ e. e ≡ NoMemory };

    fn from(_refused: OutOfMemory) -> Ended {
        Ended::OutOfMemory
    }
}
