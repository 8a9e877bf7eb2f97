ghost use Rattle.std.specs.Prelude.{◌≡◌, ◌≢◌, Some};
ghost use Rattle.ci_server.specs.Status.{refusal_told, status_of_read, exit_code, status_name};

use ci_core::CoreFault;
use ci_io::ReadFault;

/// How a session ended.
#[derive(Clone, Copy, Debug, PartialEq, Eq)]
pub enum Status {
    /// The source was read to its end or to `quit`.
    Done,
    /// The command line isn't one that the program takes.
    Usage,
    /// The source failed.
    ReadFault,
    /// The sink failed.
    WriteFault,
    /// The journal's bytes, `used`, and those of the refused step's event, `more`, are above the setting.
    JournalFull { used: u64, more: u64 },
    /// A path is new, and as many were noted as the setting says.
    TooManyDocuments,
    OutOfMemory,
    /// A line without an end.
    EndlessLine,
}

impl Status {
    /// The process' exit status.
    pub fn exit_code(self) -> u8
        ensures { result ≡ exit_code self }
    {
        match self {
            Status::Done => 0,
            Status::Usage => 2,
            Status::ReadFault => 3,
            Status::WriteFault => 4,
            Status::JournalFull { .. } => 8,
            Status::TooManyDocuments => 9,
            Status::OutOfMemory => 10,
            Status::EndlessLine => 12,
        }
    }

    /// The name that is printed where a session didn't end well, without fields.
    pub fn name(self) -> &'static str
        ensures { result.now ≡ status_name self }
    {
        match self {
            Status::Done => "Done",
            Status::Usage => "Usage",
            Status::ReadFault => "ReadFault",
            Status::WriteFault => "WriteFault",
            Status::JournalFull { .. } => "JournalFull",
            Status::TooManyDocuments => "TooManyDocuments",
            Status::OutOfMemory => "OutOfMemory",
            Status::EndlessLine => "EndlessLine",
        }
    }

    // The status of a session whose step was refused. Only its first refusal is met here.
    pub(crate) fn of_step(fault: CoreFault) -> Status
        requires { fault ≢ CoreFault.Ended }
        ensures { refusal_told result ≡ Some fault }
    {
        match fault {
            CoreFault::JournalFull { used, more } => Status::JournalFull { used, more },
            CoreFault::TooManyDocuments => Status::TooManyDocuments,
            CoreFault::OutOfMemory => Status::OutOfMemory,
            CoreFault::WriteFault => Status::WriteFault,
            CoreFault::Ended => unreachable!(),
        }
    }
}

impl From<ReadFault> for Status {
    ghost from_gives = { λ fault status. status ≡ status_of_read fault };

    fn from(fault: ReadFault) -> Status {
        match fault {
            ReadFault::Failed => Status::ReadFault,
            ReadFault::Endless => Status::EndlessLine,
            ReadFault::OutOfMemory => Status::OutOfMemory,
        }
    }
}
