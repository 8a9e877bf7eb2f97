ghost use Rattle.std.specs.Prelude.{◌≡◌, IfOk};

use crate::{Event, Happened, Outcomes, Paths, Reply, Request};
use ci_base::{OutOfMemory, PathText, Seq};
use ci_chunk::Transcript;
use std::alloc::Global;

impl Event {
    /// Another event that equals this one.
    pub fn copy(&self, alloc: Global) -> Result<Event, OutOfMemory>
        ensures { IfOk result (λ event. event ≡ self.now) }
    {
        Ok(Event {
            by: self.by,
            what: self.what.copy(alloc)?,
        })
    }
}

impl Happened {
    /// Another value that equals this one.
    pub fn copy(&self, alloc: Global) -> Result<Happened, OutOfMemory>
        ensures { IfOk result (λ what. what ≡ self.now) }
    {
        match self {
            Happened::Asked { id, request } => copy_asked(alloc, *id, request),
            Happened::Noted { notice } => Ok(Happened::Noted {
                notice: notice.copy(alloc)?,
            }),
            Happened::Put {
                path,
                seq,
                transcript,
            } => copy_put(alloc, path, *seq, transcript),
            Happened::Erased { path, seq } => Ok(Happened::Erased {
                path: path.copy(alloc)?,
                seq: *seq,
            }),
            Happened::Started => Ok(Happened::Started),
            Happened::StartFailed => Ok(Happened::StartFailed),
            Happened::DaemonLost => Ok(Happened::DaemonLost),
            Happened::Begun { batch } => Ok(Happened::Begun {
                batch: batch.copy(alloc)?,
            }),
            Happened::BatchDone { number, outcomes } => copy_done(alloc, *number, outcomes),
            Happened::BatchDied { number, charged } => Ok(Happened::BatchDied {
                number: *number,
                charged: *charged,
            }),
            Happened::Returned { number } => Ok(Happened::Returned { number: *number }),
            Happened::Shadowed => Ok(Happened::Shadowed),
            Happened::MasterBegun => Ok(Happened::MasterBegun),
            Happened::MasterStep { split } => Ok(Happened::MasterStep {
                split: split.copy(alloc)?,
            }),
            Happened::MasterEnded => Ok(Happened::MasterEnded),
            Happened::Opened { id } => Ok(Happened::Opened { id: *id }),
            Happened::Answered { id, at, paths } => copy_answered(alloc, *id, *at, paths),
            Happened::Said { id, reply } => copy_said(alloc, *id, reply),
        }
    }
}

fn copy_asked(alloc: Global, id: u64, request: &Request) -> Result<Happened, OutOfMemory>
    ensures { IfOk result (λ what. what ≡ Happened.Asked id request.now) }
{
    Ok(Happened::Asked {
        id,
        request: request.copy(alloc)?,
    })
}

fn copy_put(
    alloc: Global,
    path: &PathText,
    seq: Seq,
    transcript: &Transcript,
) -> Result<Happened, OutOfMemory>
    ensures { IfOk result (λ what. what ≡ Happened.Put path.now seq transcript.now) }
{
    Ok(Happened::Put {
        path: path.copy(alloc)?,
        seq,
        transcript: transcript.copy(alloc)?,
    })
}

fn copy_done(alloc: Global, number: u64, outcomes: &Outcomes) -> Result<Happened, OutOfMemory>
    ensures { IfOk result (λ what. what ≡ Happened.BatchDone number outcomes.now) }
{
    Ok(Happened::BatchDone {
        number,
        outcomes: outcomes.copy(alloc)?,
    })
}

fn copy_answered(alloc: Global, id: u64, at: u64, paths: &Paths) -> Result<Happened, OutOfMemory>
    ensures { IfOk result (λ what. what ≡ Happened.Answered id at paths.now) }
{
    Ok(Happened::Answered {
        id,
        at,
        paths: paths.copy(alloc)?,
    })
}

fn copy_said(alloc: Global, id: u64, reply: &Reply) -> Result<Happened, OutOfMemory>
    ensures { IfOk result (λ what. what ≡ Happened.Said id reply.now) }
{
    Ok(Happened::Said {
        id,
        reply: reply.copy(alloc)?,
    })
}
