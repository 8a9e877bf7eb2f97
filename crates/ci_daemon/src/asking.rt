// A call to the filter at a place. Contracts see the conversations that the filters may have, each by its place.
ghost use Rattle.std.specs.Prelude.{◌≡◌, ◌<◌, IfOk, IfSome, length, slice_get};
ghost use Rattle.ci_chunk.specs.Talk.{Heard, stop_answer};
ghost use Rattle.ci_wire.specs.Frame.{CanEncode};
ghost use Rattle.ci_daemon.specs.Questions.{Asks, answer_of};

use ci_base::OutOfMemory;
use ci_chunk::{Answer, Call, Filter, FilterStop};
use std::alloc::Global;

/// The answer of the filter at this place.
pub(crate) fn ask_at(
    alloc: Global,
    filters: &mut [Box<dyn Filter>],
    place: usize,
    call: &Call,
) -> Result<Answer, OutOfMemory>
    requires { place < length filters.old }
    ensures asked { Asks (λ at talk. IfSome (slice_get filters.old at) (λ f. talks f talk)) place
        call.now (answer_of result)
        (λ at talk. IfSome (slice_get filters.new at) (λ f. talks f talk)) }
    ensures fits { IfOk result CanEncode }
{
    ask(alloc, &mut filters[place], call)
}

fn ask(alloc: Global, filter: &mut Box<dyn Filter>, call: &Call) -> Result<Answer, OutOfMemory>
    ensures heard { Heard (talks filter.old) call.now (answer_of result) (talks filter.new) }
    ensures fits { IfOk result CanEncode }
{
    match call {
        Call::Init { flags, path } => match filter.init(alloc, *flags, path) {
            Ok(status) => Ok(Answer::Status(status)),
            Err(_) => Err(OutOfMemory),
        },
        Call::GetChunk => match filter.get_chunk(alloc) {
            Ok(chunk) => Ok(Answer::Chunk(chunk)),
            Err(stop) => stopped(stop),
        },
        Call::GetText { max } => match filter.get_text(alloc, *max) {
            Ok((status, text)) => Ok(Answer::Text { status, text }),
            Err(stop) => stopped(stop),
        },
        Call::GetValue => match filter.get_value(alloc) {
            Ok((status, value)) => Ok(Answer::Value { status, value }),
            Err(stop) => stopped(stop),
        },
    }
}

// The status that a filter answered in place of what it was asked for.
fn stopped(stop: FilterStop) -> Result<Answer, OutOfMemory>
    ensures answer { answer_of result ≡ stop_answer stop }
    ensures fits { IfOk result CanEncode }
{
    match stop {
        FilterStop::Status(status) => Ok(Answer::Status(status)),
        FilterStop::OutOfMemory => Err(OutOfMemory),
    }
}
