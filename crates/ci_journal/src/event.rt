use crate::{Outcomes, Paths, Reply, Request};
use ci_base::{PathText, Seq};
use ci_change::{Batch, Notice};
use ci_chunk::Transcript;
use ci_keys::Key;

/// One event of a session.
#[derive(Debug, Drop)]
pub struct Event {
    /// Who made the step: 0 is the foreground, which reads the lines.
    pub by: u32,
    pub what: Happened,
}

/// What an event tells.
#[derive(Debug, Drop)]
pub enum Happened {
    /// A line was read. Requests are numbered from 1.
    Asked {
        id: u64,
        request: Request,
    },
    /// A document was changed or deleted.
    Noted {
        notice: Notice,
    },
    /// The transcript was taken as the document's filtering under the notice of this number.
    Put {
        path: PathText,
        seq: Seq,
        transcript: Transcript,
    },
    /// The document was taken away under the notice of this number.
    Erased {
        path: PathText,
        seq: Seq,
    },
    /// The filter daemon was started: from now on the author holds a link to it.
    Started,
    /// The filter daemon couldn't be started.
    StartFailed,
    /// It couldn't be started too often in a row, and no start is tried any more.
    DaemonLost,
    /// These documents are out, to be filtered.
    Begun {
        batch: Batch,
    },
    /// The batch of this number was filtered, with an outcome for each document in order.
    BatchDone {
        number: u64,
        outcomes: Outcomes,
    },
    /// The daemon died within the document at this place of the batch.
    BatchDied {
        number: u64,
        charged: u32,
    },
    /// The batch was given back as it was.
    Returned {
        number: u64,
    },
    /// The word lists became a shadow.
    Shadowed,
    /// A master merge began.
    MasterBegun,
    /// It has come to this key.
    MasterStep {
        split: Key,
    },
    /// It has ended.
    MasterEnded,
    /// A query was opened: its answer speaks of the map right behind this event.
    Opened {
        id: u64,
    },
    /// The query that was opened right before place `at` of the journal has these hits; they are
    /// printed.
    Answered {
        id: u64,
        at: u64,
        paths: Paths,
    },
    /// The request has this reply; it is printed.
    Said {
        id: u64,
        reply: Reply,
    },
}
