// The answer to a call. Contracts see the conversations that the filters may have, each by its place.
ghost use Rattle.std.specs.Prelude.{◌≡◌, ◌<◌, ◌↔◌, true, false, IfOk, IfSome, IsTrue, OnErr, length, slice_get};
ghost use Rattle.ci_chunk.specs.Statuses.{unknown_format};
ghost use Rattle.ci_chunk.specs.declared.talk.Answer.TheVariants as said;
ghost use Rattle.ci_wire.specs.Frame.{CanEncode};
ghost use Rattle.ci_daemon.specs.Replying.{IsWithin, Leaves, Replies};
ghost use Rattle.ci_daemon.specs.Rounds.{given_by, is_failing, is_init, lacks, opened};

use crate::Holding;
use crate::asking::ask_at;
use crate::reply::Reply;
use ci_base::OutOfMemory;
use ci_chunk::{Answer, Call, ChunkState, Filter, Status};
use std::alloc::Global;

/// The one answer to a call.
pub(crate) fn answer_call(
    alloc: Global,
    filters: &mut [Box<dyn Filter>],
    document: Option<Holding>,
    call: &Call,
) -> Result<Reply, OutOfMemory>
    requires { IsWithin (length filters.old) document }
    ensures ok { IfOk result (Replies (length filters.old)
        (λ at talk. IfSome (slice_get filters.old at) (λ f. talks f talk)) document call.now
        (λ at talk. IfSome (slice_get filters.new at) (λ f. talks f talk))) }
    ensures err { OnErr result (Leaves
        (λ at talk. IfSome (slice_get filters.old at) (λ f. talks f talk)) call.now
        (λ at talk. IfSome (slice_get filters.new at) (λ f. talks f talk))) }
{
    match call {
        Call::Init { .. } => open_document(alloc, filters, call),
        Call::GetChunk => go_on(alloc, filters, document, call),
        Call::GetText { .. } => go_on(alloc, filters, document, call),
        Call::GetValue => go_on(alloc, filters, document, call),
    }
}

// The answer to Init: that of the first filter that takes the document.
fn open_document(
    alloc: Global,
    filters: &mut [Box<dyn Filter>],
    call: &Call,
) -> Result<Reply, OutOfMemory>
    requires { is_init call.now ≡ true }
    ensures ok { IfOk result (Replies (length filters.old)
        (λ at talk. IfSome (slice_get filters.old at) (λ f. talks f talk)) None call.now
        (λ at talk. IfSome (slice_get filters.new at) (λ f. talks f talk))) }
    ensures err { OnErr result (Leaves
        (λ at talk. IfSome (slice_get filters.old at) (λ f. talks f talk)) call.now
        (λ at talk. IfSome (slice_get filters.new at) (λ f. talks f talk))) }
{
    for place in 0..filters.len() {
        let answer = ask_at(alloc, filters, place, call)?;
        if !is_unknown(&answer) {
            let document = opened(place, &answer);
            return Ok(Reply { answer, document });
        }
    }
    Ok(said(Status::FILTER_E_UNKNOWNFORMAT, None))
}

// The answer to another call.
fn go_on(
    alloc: Global,
    filters: &mut [Box<dyn Filter>],
    document: Option<Holding>,
    call: &Call,
) -> Result<Reply, OutOfMemory>
    requires within { IsWithin (length filters.old) document }
    requires other { is_init call.now ≡ false }
    ensures ok { IfOk result (Replies (length filters.old)
        (λ at talk. IfSome (slice_get filters.old at) (λ f. talks f talk)) document call.now
        (λ at talk. IfSome (slice_get filters.new at) (λ f. talks f talk))) }
    ensures err { OnErr result (Leaves
        (λ at talk. IfSome (slice_get filters.old at) (λ f. talks f talk)) call.now
        (λ at talk. IfSome (slice_get filters.new at) (λ f. talks f talk))) }
{
    match document {
        None => Ok(said(Status::FILTER_E_END_OF_CHUNKS, None)),
        Some(holding) => match lacks(call, holding.given) {
            Some(status) => Ok(said(status, document)),
            None => ask_holder(alloc, filters, holding, call),
        },
    }
}

// The answer of the filter that holds the document.
fn ask_holder(
    alloc: Global,
    filters: &mut [Box<dyn Filter>],
    holding: Holding,
    call: &Call,
) -> Result<Reply, OutOfMemory>
    requires within { holding.filter < length filters.old }
    requires other { is_init call.now ≡ false }
    requires has { lacks call.now holding.given ≡ None }
    ensures ok { IfOk result (Replies (length filters.old)
        (λ at talk. IfSome (slice_get filters.old at) (λ f. talks f talk)) (Some holding) call.now
        (λ at talk. IfSome (slice_get filters.new at) (λ f. talks f talk))) }
    ensures err { OnErr result (Leaves
        (λ at talk. IfSome (slice_get filters.old at) (λ f. talks f talk)) call.now
        (λ at talk. IfSome (slice_get filters.new at) (λ f. talks f talk))) }
{
    let answer = ask_at(alloc, filters, holding.filter, call)?;
    let given = given_by(&answer, holding.given);
    let document = Some(Holding { given, ..holding });
    Ok(Reply { answer, document })
}

fn said(status: Status, document: Option<Holding>) -> Reply
    ensures { result ≡ record { answer = said.Status status; document = document } }
{
    Reply {
        answer: Answer::Status(status),
        document,
    }
}

fn is_unknown(answer: &Answer) -> bool
    ensures { IsTrue result ↔ (answer.now ≡ said.Status unknown_format) }
{
    match answer {
        Answer::Status(status) => *status == Status::FILTER_E_UNKNOWNFORMAT,
        _ => false,
    }
}

fn is_failing(answer: &Answer) -> bool
    ensures { result ≡ is_failing answer.now }
{
    match answer {
        Answer::Status(status) => status.is_failing(),
        _ => false,
    }
}

fn opened(place: usize, answer: &Answer) -> Option<Holding>
    ensures { result ≡ opened place answer.now }
{
    if is_failing(answer) {
        return None;
    }
    Some(Holding {
        filter: place,
        given: None,
    })
}

fn given_by(answer: &Answer, given: Option<ChunkState>) -> Option<ChunkState>
    ensures { result ≡ given_by answer.now given }
{
    match answer {
        Answer::Chunk(chunk) => Some(chunk.state),
        _ => given,
    }
}

fn lacks(call: &Call, given: Option<ChunkState>) -> Option<Status>
    ensures { result ≡ lacks call.now given }
{
    match call {
        Call::GetText { .. } if given != Some(ChunkState::Text) => Some(Status::FILTER_E_NO_TEXT),
        Call::GetValue if given != Some(ChunkState::Value) => Some(Status::FILTER_E_NO_VALUES),
        _ => None,
    }
}
