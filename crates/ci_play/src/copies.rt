ghost use Rattle.std.specs.Prelude.{◌≡◌, IfOk};

use crate::Step;
use ci_base::{OutOfMemory, PathText, Seq};
use ci_change::{Batch, What};
use ci_chunk::Transcript;
use ci_journal::{Outcomes, Paths, Reply, Request};
use std::alloc::Global;

impl Step {
    /// Another step that equals this one.
    pub fn copy(&self, alloc: Global) -> Result<Step, OutOfMemory>
        ensures { IfOk result (λ step. step ≡ self.now) }
    {
        match self {
            Step::Ask { by, request } => copy_ask(alloc, *by, request),
            Step::Note { by, path, what } => copy_note(alloc, *by, path, *what),
            Step::Put {
                by,
                path,
                seq,
                transcript,
            } => copy_put(alloc, *by, path, *seq, transcript),
            Step::Erase { by, path } => Ok(Step::Erase {
                by: *by,
                path: path.copy(alloc)?,
            }),
            Step::Started { by } => Ok(Step::Started { by: *by }),
            Step::StartFailed { by } => Ok(Step::StartFailed { by: *by }),
            Step::BeginBatch { by, max } => Ok(Step::BeginBatch { by: *by, max: *max }),
            Step::FinishBatch {
                by,
                batch,
                outcomes,
            } => copy_finish(alloc, *by, batch, outcomes),
            Step::BatchDied { by, batch, charged } => Ok(Step::BatchDied {
                by: *by,
                batch: batch.copy(alloc)?,
                charged: *charged,
            }),
            Step::ReturnBatch { by, batch } => Ok(Step::ReturnBatch {
                by: *by,
                batch: batch.copy(alloc)?,
            }),
            Step::OpenQuery { by } => Ok(Step::OpenQuery { by: *by }),
            Step::Answer { by, id, at, paths } => copy_answer(alloc, *by, *id, *at, paths),
            Step::Say { by, id, reply } => copy_say(alloc, *by, *id, reply),
        }
    }
}

fn copy_ask(alloc: Global, by: u32, request: &Request) -> Result<Step, OutOfMemory>
    ensures { IfOk result (λ step. step ≡ Step.Ask by request.now) }
{
    Ok(Step::Ask {
        by,
        request: request.copy(alloc)?,
    })
}

fn copy_note(alloc: Global, by: u32, path: &PathText, what: What) -> Result<Step, OutOfMemory>
    ensures { IfOk result (λ step. step ≡ Step.Note by path.now what) }
{
    Ok(Step::Note {
        by,
        path: path.copy(alloc)?,
        what,
    })
}

fn copy_put(
    alloc: Global,
    by: u32,
    path: &PathText,
    seq: Seq,
    transcript: &Transcript,
) -> Result<Step, OutOfMemory>
    ensures { IfOk result (λ step. step ≡ Step.Put by path.now seq transcript.now) }
{
    Ok(Step::Put {
        by,
        path: path.copy(alloc)?,
        seq,
        transcript: transcript.copy(alloc)?,
    })
}

fn copy_finish(
    alloc: Global,
    by: u32,
    batch: &Batch,
    outcomes: &Outcomes,
) -> Result<Step, OutOfMemory>
    ensures { IfOk result (λ step. step ≡ Step.FinishBatch by batch.now outcomes.now) }
{
    Ok(Step::FinishBatch {
        by,
        batch: batch.copy(alloc)?,
        outcomes: outcomes.copy(alloc)?,
    })
}

fn copy_answer(alloc: Global, by: u32, id: u64, at: u64, paths: &Paths) -> Result<Step, OutOfMemory>
    ensures { IfOk result (λ step. step ≡ Step.Answer by id at paths.now) }
{
    Ok(Step::Answer {
        by,
        id,
        at,
        paths: paths.copy(alloc)?,
    })
}

fn copy_say(alloc: Global, by: u32, id: u64, reply: &Reply) -> Result<Step, OutOfMemory>
    ensures { IfOk result (λ step. step ≡ Step.Say by id reply.now) }
{
    Ok(Step::Say {
        by,
        id,
        reply: reply.copy(alloc)?,
    })
}
