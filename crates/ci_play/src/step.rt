use ci_base::{PathText, Seq};
use ci_change::{Batch, What};
use ci_chunk::Transcript;
use ci_journal::{Outcomes, Paths, Reply, Request};

/// A step of a catalogue, with its author.
#[derive(Drop)]
pub enum Step {
    Ask {
        by: u32,
        request: Request,
    },
    Note {
        by: u32,
        path: PathText,
        what: What,
    },
    Put {
        by: u32,
        path: PathText,
        seq: Seq,
        transcript: Transcript,
    },
    Erase {
        by: u32,
        path: PathText,
    },
    Started {
        by: u32,
    },
    StartFailed {
        by: u32,
    },
    BeginBatch {
        by: u32,
        max: usize,
    },
    FinishBatch {
        by: u32,
        batch: Batch,
        outcomes: Outcomes,
    },
    BatchDied {
        by: u32,
        batch: Batch,
        charged: u32,
    },
    ReturnBatch {
        by: u32,
        batch: Batch,
    },
    OpenQuery {
        by: u32,
    },
    Answer {
        by: u32,
        id: u64,
        at: u64,
        paths: Paths,
    },
    Say {
        by: u32,
        id: u64,
        reply: Reply,
    },
}
