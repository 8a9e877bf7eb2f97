// The answers to Init and to GetChunk.
ghost use Rattle.std.specs.Prelude.{◌≡◌, ◌==◌, ◌||◌, ◌++◌, ℕ, List, [], ◌∷◌, OnOk};
ghost use Rattle.ci_chunk.specs.Sizes.{IsBounded};
ghost use Rattle.ci_chunk.specs.Talk.{Talk as Exchanged};
ghost use Rattle.ci_chunk.specs.declared.talk.Answer.{Answer as Said};
ghost use Rattle.ci_chunk.specs.declared.talk.Call.{Call as Asked};
ghost use Rattle.ci_link.specs.Document.{Hears, IsNearer, Stands, counted, is_above, left, stage_for};
ghost use Rattle.ci_link.specs.Reading as reading;

use crate::document::{Document, Next};
use crate::stage::Stage;
use ci_base::{OutOfMemory, Text};
use ci_chunk::{
    Answer, Call, ChunkState, Outcome, Piece, StatChunk, Status, Transcript, TranscriptFault,
};
use std::alloc::Global;

/// The most chunks that are asked for in a document.
const CLIP_CHUNKS: usize = 65_536;

/// The answer to Init: the document is open, unless the status is a failing one.
pub(crate) fn hear_init(mut document: Document, answer: Answer) -> Next
    ensures next { (path : List ℕ) (talk : Exchanged) →
        Stands path (record document { stage = Stage.Opening }) talk →
        Hears path talk (reading.init_call path) answer result }
    ensures nearer { IsNearer (left (record document { stage = Stage.Opening })) result }
{
    match answer {
        Answer::Status(status) => {
            if status.is_failing() {
                return of_status(status);
            }
            document.stage = Stage::Chunks;
            Next::Ask(document)
        }
        Answer::Chunk(_) => Next::Illegal,
        Answer::Text { .. } => Next::Illegal,
        Answer::Value { .. } => Next::Illegal,
    }
}

/// The answer to GetChunk: a chunk with an identifier above those before it, or a status.
pub(crate) fn hear_chunk(mut document: Document, alloc: Global, answer: Answer) -> Next
    ensures next { (path : List ℕ) (talk : Exchanged) →
        Stands path (record document { stage = Stage.Chunks }) talk →
        Hears path talk Call.GetChunk answer result }
    ensures nearer { IsNearer (left (record document { stage = Stage.Chunks })) result }
{
    match answer {
        Answer::Chunk(chunk) => {
            if !is_above(document.last, chunk.id) {
                return Next::Illegal;
            }
            document.last = Some(chunk.id);
            document.stage = stage_of(alloc, chunk);
            count_chunk(document)
        }
        Answer::Status(status) => {
            if ends_chunks(status) {
                return Next::Ends(Outcome::Done(document.pieces));
            }
            if !passes_chunk(status) {
                return of_status(status);
            }
            document.stage = Stage::Chunks;
            count_chunk(document)
        }
        Answer::Text { .. } => Next::Illegal,
        Answer::Value { .. } => Next::Illegal,
    }
}

// The document goes on, unless this was the last chunk that it may have.
fn count_chunk(mut document: Document) -> Next
    ensures { result ≡ counted document }
{
    let chunks = document.chunks.saturating_add(1);
    if chunks >= CLIP_CHUNKS {
        return Next::Ends(Outcome::Done(document.pieces));
    }
    document.chunks = chunks;
    Next::Ask(document)
}

fn is_above(last: Option<u32>, id: u32) -> bool
    ensures { result ≡ is_above last id }
{
    match last {
        None => true,
        Some(last) => last < id,
    }
}

fn ends_chunks(status: Status) -> bool
    ensures { result ≡ (status.0 == 0x80041700) }
{
    status == Status::FILTER_E_END_OF_CHUNKS
}

fn passes_chunk(status: Status) -> bool
    ensures { result ≡ ((status.0 == 0x80041707) || (status.0 == 0x80041708)) }
{
    status == Status::FILTER_E_EMBEDDING_UNAVAILABLE || status == Status::FILTER_E_LINK_UNAVAILABLE
}

/// A status that tells its call nothing of its own: a refusal, a failure, or no legal answer.
pub(crate) fn of_status(status: Status) -> Next
    ensures next { (path : List ℕ) (talk : Exchanged) (call : Asked) (answer : Said) →
        reading.after talk call answer ≡ reading.after_status status →
        Hears path talk call answer result }
    ensures nearer { (count : ℕ) → IsNearer count result }
{
    if is_refusal(status) {
        return Next::Ends(Outcome::Refused(status));
    }
    if status.is_failing() {
        return Next::Ends(Outcome::Failed(status));
    }
    Next::Illegal
}

fn is_refusal(status: Status) -> bool
    ensures { result ≡ ((status.0 == 0x8004170B) || (status.0 == 0x8004170C)) }
{
    status == Status::FILTER_E_PASSWORD || status == Status::FILTER_E_UNKNOWNFORMAT
}

fn stage_of(alloc: Global, chunk: StatChunk) -> Stage
    ensures { result ≡ stage_for chunk chunk.state }
{
    match chunk.state {
        ChunkState::Text => Stage::Text {
            chunk,
            text: Text::from(String::new(alloc)),
        },
        ChunkState::Value => Stage::Value { chunk },
        ChunkState::FilterOwnedValue => Stage::Chunks,
    }
}

/// The chunk's piece. A document is clipped before it is too long for a transcript.
pub(crate) fn end_chunk(pieces: &mut Transcript, piece: Piece) -> Result<(), OutOfMemory>
    requires { IsBounded (pieces.old ++ piece ∷ []) }
    ensures { OnOk result (pieces.new ≡ pieces.old ++ piece ∷ []) }
{
    match pieces.add(piece) {
        Ok(()) => Ok(()),
        Err(TranscriptFault::OutOfMemory) => Err(OutOfMemory),
        Err(TranscriptFault::TooLong) => unreachable!(),
    }
}
