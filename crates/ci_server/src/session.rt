ghost use Rattle.std.specs.Prelude.{◌≡◌, []};

use crate::Status;
use ci_io::{Sink, Source};
use ci_journal::Journal;
use ci_link::Spawner;
use std::alloc::Global;

/// What is left when a session has ended.
#[derive(Drop)]
pub struct Session<S: Source + Drop, K: Sink + Drop, P: Spawner + Drop> {
    pub status: Status,
    pub journal: Journal,
    pub source: S,
    pub sink: K,
    pub spawner: P,
}

impl<S: Source + Drop, K: Sink + Drop, P: Spawner + Drop> Session<S, K, P> {
    // A session that read and wrote nothing.
    pub(crate) fn idle(
        alloc: Global,
        status: Status,
        source: S,
        sink: K,
        spawner: P,
    ) -> Session<S, K, P>
        ensures status { result.status ≡ status }
        ensures journal { result.journal.list ≡ [] }
        ensures source { result.source ≡ source }
        ensures sink { result.sink ≡ sink }
        ensures spawner { result.spawner ≡ spawner }
    {
        Session {
            status,
            journal: Journal::new(alloc),
            source,
            sink,
            spawner,
        }
    }
}
