ghost use Rattle.std.specs.Prelude.{◌≡◌, ◌+◌, ◌^◌, sum_by};
ghost use Rattle.ci_journal.specs.Bytes.{capped, event_bytes, request_bytes, text_bytes, texts_bytes, value_bytes, piece_bytes, transcript_bytes, outcome_bytes, doc_bytes};

use crate::reply_bytes::reply_len;
use crate::{Event, Happened, Outcome, Request};
use ci_base::{PathText, Seq, Value};
use ci_chunk::{Piece, Transcript};

/// What every event counts, beside what it holds.
pub const EVENT_BYTES: u64 = 64;

/// What a piece of a document counts beside its text.
const PIECE_BYTES: u64 = 40;

/// What a text counts beside its bytes, and a document of a batch or an outcome beside what it
/// holds.
const ITEM_BYTES: u64 = 8;

impl Event {
    /// What the event counts in the bound on a journal. A count ends at the greatest `u64`.
    pub fn bytes(&self) -> u64
        ensures { result ≡ capped (event_bytes self.now.what) }
    {
        self.what.bytes()
    }
}

impl Happened {
    /// What an event that tells this counts in the bound on a journal.
    pub fn bytes(&self) -> u64
        ensures { result ≡ capped (event_bytes self.now) }
    {
        match self {
            Happened::Asked { request, .. } => asked_bytes(request),
            Happened::Noted { notice } => noted_bytes(&notice.path),
            Happened::Put {
                path,
                transcript,
                ..
            } => put_bytes(path, transcript),
            Happened::Erased { path, .. } => erased_bytes(path),
            Happened::Started => EVENT_BYTES,
            Happened::StartFailed => EVENT_BYTES,
            Happened::DaemonLost => EVENT_BYTES,
            Happened::Begun { batch } => begun_bytes(batch.docs.items()),
            Happened::BatchDone { outcomes, .. } => done_bytes(outcomes.items()),
            Happened::BatchDied { .. } => EVENT_BYTES,
            Happened::Returned { .. } => EVENT_BYTES,
            Happened::Shadowed => EVENT_BYTES,
            Happened::MasterBegun => EVENT_BYTES,
            Happened::MasterStep { split } => text_len(split.word.as_str()).saturating_add(
                EVENT_BYTES,
            ),
            Happened::MasterEnded => EVENT_BYTES,
            Happened::Opened { .. } => EVENT_BYTES,
            Happened::Answered { paths, .. } => paths_len(paths.items()).saturating_add(
                EVENT_BYTES,
            ),
            Happened::Said { id, reply } => reply_len(*id, reply).saturating_add(EVENT_BYTES),
        }
    }
}

/// What a request will count when it is asked, before the event is made.
pub fn asked_bytes(request: &Request) -> u64
    ensures { result ≡ capped (request_bytes request.now + 64) }
{
    request.bytes().saturating_add(EVENT_BYTES)
}

/// What a notice of the path will count, before the event is made.
pub fn noted_bytes(path: &PathText) -> u64
    ensures { result ≡ capped (text_bytes path.now + 64) }
{
    text_len(path.as_str()).saturating_add(EVENT_BYTES)
}

/// What a put of the transcript will count, before the event is made.
pub fn put_bytes(path: &PathText, transcript: &Transcript) -> u64
    ensures { result ≡ capped (text_bytes path.now + transcript_bytes transcript.now + 64) }
{
    text_len(path.as_str())
        .saturating_add(pieces_len(transcript.items()))
        .saturating_add(EVENT_BYTES)
}

/// What an erasure of the path will count, before the event is made.
pub fn erased_bytes(path: &PathText) -> u64
    ensures { result ≡ capped (text_bytes path.now + 64) }
{
    text_len(path.as_str()).saturating_add(EVENT_BYTES)
}

/// What the beginning of a batch of these documents will count, before the event is made.
pub fn begun_bytes(docs: &[(PathText, Seq)]) -> u64
    ensures { result ≡ capped (sum_by doc_bytes docs.now + 64) }
{
    let mut len: u64 = 0;
    for (path, _) in docs {
        len = len
            .saturating_add(text_len(path.as_str()))
            .saturating_add(ITEM_BYTES);
    }
    len.saturating_add(EVENT_BYTES)
}

/// What the end of a batch with these outcomes will count, before the event is made.
pub fn done_bytes(outcomes: &[Outcome]) -> u64
    ensures { result ≡ capped (sum_by outcome_bytes outcomes.now + 64) }
{
    let mut len: u64 = 0;
    for outcome in outcomes {
        len = len.saturating_add(outcome_len(outcome));
    }
    len.saturating_add(EVENT_BYTES)
}

impl Request {
    fn bytes(&self) -> u64
        ensures { result ≡ capped (request_bytes self.now) }
    {
        match self {
            Request::Changed(path) => text_len(path.as_str()),
            Request::Deleted(path) => text_len(path.as_str()),
            Request::Put { path, text } => {
                text_len(path.as_str()).saturating_add(text_len(text.as_str()))
            }
            Request::Query(text) => text_len(text.as_str()),
            Request::Filter
            | Request::Shadow
            | Request::Master
            | Request::Step
            | Request::Scan
            | Request::Pending
            | Request::Unfiltered
            | Request::Status
            | Request::Load { .. }
            | Request::Wait
            | Request::Quit
            | Request::Bad
            | Request::Long => 0,
        }
    }
}

fn text_len(text: &str) -> u64
    ensures { result ≡ capped (text_bytes text.now) }
{
    (text.len() as u64).saturating_add(ITEM_BYTES)
}

fn outcome_len(outcome: &Outcome) -> u64
    ensures { result ≡ capped (outcome_bytes outcome.now) }
{
    match outcome {
        Outcome::Done(transcript) => pieces_len(transcript.items()).saturating_add(ITEM_BYTES),
        Outcome::Failed(_) => ITEM_BYTES,
        Outcome::Refused(_) => ITEM_BYTES,
    }
}

fn pieces_len(pieces: &[Piece]) -> u64
    ensures { result ≡ capped (transcript_bytes pieces.now) }
{
    let mut len: u64 = 0;
    for piece in pieces {
        len = len.saturating_add(piece_len(piece));
    }
    len
}

fn piece_len(piece: &Piece) -> u64
    ensures { result ≡ capped (piece_bytes piece.now) }
{
    match piece {
        Piece::Words { text, .. } => text_len(text.as_str()).saturating_add(PIECE_BYTES),
        Piece::Held { value, .. } => value_len(value).saturating_add(PIECE_BYTES),
    }
}

fn value_len(value: &Option<Value>) -> u64
    ensures { result ≡ capped (value_bytes value.now) }
{
    match value {
        None => 0,
        Some(Value::Int(_)) => 0,
        Some(Value::Str(text)) => text_len(text.as_str()),
    }
}

fn paths_len(paths: &[PathText]) -> u64
    ensures { result ≡ capped (texts_bytes paths.now) }
{
    let mut len: u64 = 0;
    for path in paths {
        len = len.saturating_add(text_len(path.as_str()));
    }
    len
}
