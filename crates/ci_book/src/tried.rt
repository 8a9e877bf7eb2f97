ghost use Rattle.std.specs.Prelude.{◌≡◌};
ghost use Rattle.ci_journal.specs.declared.event.Happened.{Happened};

use ci_base::{PathText, Seq};
use ci_change::{Batch, What};
use ci_chunk::Transcript;
use ci_journal::{Outcomes, Paths, Reply, Request};
use std::marker::Model;
use std::snapshot::Snapshot;

/// What a step that was refused would have told. It is for contracts alone: it holds no memory, and
/// no code reads it.
#[derive(Drop)]
pub struct Tried {
    attempt: Attempt,
}

#[derive(Drop)]
enum Attempt {
    Asked(u64, Snapshot<Request>),
    Noted(Snapshot<PathText>, Seq, What),
    Put(Snapshot<PathText>, Seq, Snapshot<Transcript>),
    Erased(Snapshot<PathText>, Seq),
    Started,
    StartFailed,
    Begun(Snapshot<Batch>),
    BatchDone(u64, Snapshot<Outcomes>),
    Opened(u64),
    Answered(u64, u64, Snapshot<Paths>),
    Said(u64, Snapshot<Reply>),
}

impl Model for Tried {
    ghost use Rattle.ci_journal.specs.declared.event.Happened.{Happened};

    ghost Value = { Happened };

    ghost use Rattle.ci_book.specs.Tried.{told_by};

    ghost view = { λ t. told_by t.attempt };
}

impl Tried {
    pub fn asked(id: u64, request: &Request) -> Tried
        ensures { result ≡ Happened.Asked id request.now }
    {
        Tried {
            attempt: Attempt::Asked(id, Snapshot::of(request)),
        }
    }

    pub fn noted(path: &PathText, seq: Seq, what: What) -> Tried
        ensures { result
            ≡ Happened.Noted (record { path = path.now; seq = seq; what = what }) }
    {
        Tried {
            attempt: Attempt::Noted(Snapshot::of(path), seq, what),
        }
    }

    pub fn put(path: &PathText, seq: Seq, transcript: &Transcript) -> Tried
        ensures { result ≡ Happened.Put path.now seq transcript.now }
    {
        Tried {
            attempt: Attempt::Put(Snapshot::of(path), seq, Snapshot::of(transcript)),
        }
    }

    pub fn erased(path: &PathText, seq: Seq) -> Tried
        ensures { result ≡ Happened.Erased path.now seq }
    {
        Tried {
            attempt: Attempt::Erased(Snapshot::of(path), seq),
        }
    }

    pub fn started() -> Tried
        ensures { result ≡ Happened.Started }
    {
        Tried {
            attempt: Attempt::Started,
        }
    }

    pub fn start_failed() -> Tried
        ensures { result ≡ Happened.StartFailed }
    {
        Tried {
            attempt: Attempt::StartFailed,
        }
    }

    pub fn begun(batch: &Batch) -> Tried
        ensures { result ≡ Happened.Begun batch.now }
    {
        Tried {
            attempt: Attempt::Begun(Snapshot::of(batch)),
        }
    }

    pub fn batch_done(number: u64, outcomes: &Outcomes) -> Tried
        ensures { result ≡ Happened.BatchDone number outcomes.now }
    {
        Tried {
            attempt: Attempt::BatchDone(number, Snapshot::of(outcomes)),
        }
    }

    pub fn opened(id: u64) -> Tried
        ensures { result ≡ Happened.Opened id }
    {
        Tried {
            attempt: Attempt::Opened(id),
        }
    }

    pub fn answered(id: u64, at: u64, paths: &Paths) -> Tried
        ensures { result ≡ Happened.Answered id at paths.now }
    {
        Tried {
            attempt: Attempt::Answered(id, at, Snapshot::of(paths)),
        }
    }

    pub fn said(id: u64, reply: &Reply) -> Tried
        ensures { result ≡ Happened.Said id reply.now }
    {
        Tried {
            attempt: Attempt::Said(id, Snapshot::of(reply)),
        }
    }
}
