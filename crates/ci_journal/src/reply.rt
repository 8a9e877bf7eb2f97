ghost use Rattle.std.specs.Prelude.{◌≡◌, IfOk};

use crate::{Counts, Notices, Paths};
use ci_base::OutOfMemory;
use ci_dialect::QueryKind;
use ci_keys::Key;
use std::alloc::Global;

/// What the session says to a request. The hits of a query are an event of their own.
#[derive(Debug, Drop)]
pub enum Reply {
    /// What was asked for was done.
    Ok,
    /// The line asks for nothing that is known.
    Bad,
    /// The line has too many bytes.
    Long,
    /// A path isn't in scope, and nothing was noted.
    Outside,
    /// The text is no query: its first fault, and the number of bytes before it.
    QueryFault {
        kind: QueryKind,
        at: u64,
    },
    /// Nothing is left to filter; so many documents are set aside.
    Filtered(u32),
    /// Something is left to filter, and the daemon couldn't be started.
    NoDaemon,
    /// No word list is left that isn't in a shadow.
    Shadowed,
    /// A master merge has ended.
    Merged,
    /// A master merge has begun.
    Begun,
    /// The master merge has come to this key.
    Split(Key),
    /// So many documents of the folder were noted as changed and as deleted, and so many names were
    /// skipped.
    Scanned {
        changed: u64,
        deleted: u64,
        skipped: u64,
    },
    /// The folder couldn't be listed, and nothing was noted.
    ListFault,
    /// These notices are pending.
    Pending(Notices),
    /// These documents are set aside.
    Unfiltered(Paths),
    Status(Counts),
    /// So many documents were put, whose texts have so many bytes together.
    Loaded {
        count: u32,
        bytes: u64,
    },
    /// All earlier requests have their replies.
    Done,
    /// All earlier requests have their replies, and the session ends.
    Bye,
}

impl Reply {
    /// Another reply that equals this one.
    pub fn copy(&self, alloc: Global) -> Result<Reply, OutOfMemory>
        ensures { IfOk result (λ reply. reply ≡ self.now) }
    {
        Ok(match self {
            Reply::Ok => Reply::Ok,
            Reply::Bad => Reply::Bad,
            Reply::Long => Reply::Long,
            Reply::Outside => Reply::Outside,
            Reply::QueryFault { kind, at } => Reply::QueryFault {
                kind: *kind,
                at: *at,
            },
            Reply::Filtered(count) => Reply::Filtered(*count),
            Reply::NoDaemon => Reply::NoDaemon,
            Reply::Shadowed => Reply::Shadowed,
            Reply::Merged => Reply::Merged,
            Reply::Begun => Reply::Begun,
            Reply::Split(key) => Reply::Split(key.copy(alloc)?),
            Reply::Scanned {
                changed,
                deleted,
                skipped,
            } => Reply::Scanned {
                changed: *changed,
                deleted: *deleted,
                skipped: *skipped,
            },
            Reply::ListFault => Reply::ListFault,
            Reply::Pending(notices) => Reply::Pending(notices.copy(alloc)?),
            Reply::Unfiltered(paths) => Reply::Unfiltered(paths.copy(alloc)?),
            Reply::Status(counts) => Reply::Status(*counts),
            Reply::Loaded { count, bytes } => Reply::Loaded {
                count: *count,
                bytes: *bytes,
            },
            Reply::Done => Reply::Done,
            Reply::Bye => Reply::Bye,
        })
    }
}
