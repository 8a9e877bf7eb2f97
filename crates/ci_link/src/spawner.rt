ghost use Rattle.std.specs.Prelude.{◌≡◌, ◌≤◌, ℕ, List, Option, IfOk, IsErrOf, IsSome, OnOk};
ghost use Rattle.ci_io.specs.Causes.{Rose};
ghost use Rattle.ci_link.specs.Records.{IsFresh, IsTold, record_of, with_record};
ghost use Rattle.ci_link.specs.declared.record.LinkRecord.{LinkRecord};

use crate::Link;
use std::alloc::Global;
use thiserror::Error;

/// Why no daemon was started.
#[derive(Clone, Copy, Debug, PartialEq, Eq, Error)]
pub enum SpawnFault {
    #[error("a daemon could not be started")]
    Failed,
    #[error("out of memory")]
    OutOfMemory,
}

/// What starts daemons, and takes their links back.
pub trait Spawner {
    type Link: Link + Drop;

    /// A record for each link given back, in order, where the spawner tells them.
    ghost records: { Self → Option (List LinkRecord) };

    /// How many starts failed.
    ghost faults: { Self → ℕ };

    /// Starts a daemon.
    fn start(&mut self, alloc: Global, program: &str) -> Result<Self::Link, SpawnFault>
        ensures fresh { IfOk result (λ link.
            IsFresh (Self.Link.sent link) (Self.Link.given link) (Self.Link.faults link)) }
        ensures told { IsSome (records self.old) → IfOk result (λ link.
            IsTold (Self.Link.sent link) (Self.Link.given link) (Self.Link.more link)) }
        ensures records { records self.new ≡ records self.old }
        ensures later { faults self.old ≤ faults self.new }
        ensures failed { IsErrOf result SpawnFault.Failed →
            Rose (faults self.old) (faults self.new) }
        ensures kept { OnOk result (faults self.new ≡ faults self.old) }
        ensures memory { IsErrOf result SpawnFault.OutOfMemory →
            faults self.new ≡ faults self.old };

    /// Ends a daemon, and takes its link back. A spawner that tells its records tells one more.
    fn stop(&mut self, link: Self::Link)
        ensures records { records self.new ≡ with_record (records self.old)
            (record_of (Self.Link.sent link) (Self.Link.given link) (Self.Link.more link)
            (Self.Link.faults link)) }
        ensures tells_on { IsSome (records self.old) → IsSome (records self.new) }
        ensures faults { faults self.new ≡ faults self.old };
}
