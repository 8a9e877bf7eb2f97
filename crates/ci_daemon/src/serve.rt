ghost use Rattle.std.specs.Prelude.{◌≡◌, ◌≢◌, IfErr, IfOk, IfSome, OnOk, length, slice_get};
ghost use Rattle.std.specs.Io.KnownBytes.{Appends};
ghost use Rattle.ci_wire.specs.Frame.{CanEncode, frame_spelling};
ghost use Rattle.ci_wire.specs.declared.frame.Frame.TheVariants as frames;
ghost use Rattle.ci_daemon.specs.Hearing.{ReadCounts};
ghost use Rattle.ci_daemon.specs.Replying.{IsWithin};
ghost use Rattle.ci_daemon.specs.Serving.{Served, ServesOne, Unsaid, WriteCounts, begun};

use crate::answering::answer_call;
use crate::hearing::Hearing;
use crate::{Ended, Holding};
use ci_chunk::{Answer, Filter};
use ci_io::{Sink, Source, put_all};
use ci_wire::encode_answer;
use std::alloc::Global;

/// The most calls of a service.
const MOST_CALLS: u64 = 4_294_967_296;

/// Answers the calls that the source gives, each by one answer, until one of the causes of `Ended`.
pub fn serve_filters<S: Source, K: Sink>(
    alloc: Global,
    source: &mut S,
    sink: &mut K,
    filters: &mut [Box<dyn Filter>],
) -> Ended
    ensures served { Served (length filters.old)
        (λ at talk. IfSome (slice_get filters.old at) (λ f. talks f talk))
        (begun (S.left source.old) (K.written sink.old)) result
        (S.left source.new) (K.written sink.new)
        (λ at talk. IfSome (slice_get filters.new at) (λ f. talks f talk)) }
    ensures reads { ReadCounts (S.faults source.old) (S.faults source.new) result }
    ensures writes { WriteCounts (K.faults sink.old) (K.faults sink.new) result }
{
    let mut hearing = match Hearing::new(alloc) {
        Ok(hearing) => hearing,
        Err(_) => return Ended::OutOfMemory,
    };
    let mut document = None;
    for _answered in 0..MOST_CALLS {
        match serve_call(alloc, source, sink, filters, &mut hearing, document) {
            Ok(next) => document = next,
            Err(ended) => return ended,
        }
    }
    Ended::Spent
}

// Takes the next call, and answers it. What is open then comes back.
fn serve_call<S: Source, K: Sink>(
    alloc: Global,
    source: &mut S,
    sink: &mut K,
    filters: &mut [Box<dyn Filter>],
    hearing: &mut Hearing,
    document: Option<Holding>,
) -> Result<Option<Holding>, Ended>
    requires { IsWithin (length filters.old) document }
    ensures ok { IfOk result (λ next. ServesOne (length filters.old)
        (λ at talk. IfSome (slice_get filters.old at) (λ f. talks f talk))
        (record {
          held = hearing.old;
          document = document;
          left = S.left source.old;
          written = K.written sink.old;
        })
        (record {
          held = hearing.new;
          document = next;
          left = S.left source.new;
          written = K.written sink.new;
        })
        (λ at talk. IfSome (slice_get filters.new at) (λ f. talks f talk))) }
    ensures err { IfErr result (λ ended. Served (length filters.old)
        (λ at talk. IfSome (slice_get filters.old at) (λ f. talks f talk))
        (record {
          held = hearing.old;
          document = document;
          left = S.left source.old;
          written = K.written sink.old;
        })
        ended (S.left source.new) (K.written sink.new)
        (λ at talk. IfSome (slice_get filters.new at) (λ f. talks f talk))) }
    ensures not_spent { IfErr result (λ ended. ended ≢ Ended.Spent) }
    ensures within { IfOk result (IsWithin (length filters.old)) }
    ensures read { OnOk result (S.faults source.new ≡ S.faults source.old) }
    ensures wrote { OnOk result (K.faults sink.new ≡ K.faults sink.old) }
    ensures reads { IfErr result (ReadCounts (S.faults source.old) (S.faults source.new)) }
    ensures writes { IfErr result (WriteCounts (K.faults sink.old) (K.faults sink.new)) }
{
    let call = hearing.next_call(source)?;
    let reply = answer_call(alloc, filters, document, &call)?;
    say(alloc, sink, &reply.answer)?;
    Ok(reply.document)
}

// Writes an answer.
fn say<K: Sink>(alloc: Global, sink: &mut K, answer: &Answer) -> Result<(), Ended>
    requires { CanEncode answer.now }
    ensures ok { OnOk result (Appends (K.written sink.old) (K.written sink.new)
        (frame_spelling (frames.Answer answer.now))) }
    ensures err { IfErr result (Unsaid answer.now (K.written sink.old) (K.written sink.new)) }
    ensures kept { OnOk result (K.faults sink.new ≡ K.faults sink.old) }
    ensures count { IfErr result (WriteCounts (K.faults sink.old) (K.faults sink.new)) }
{
    let bytes = encode_answer(alloc, answer)?;
    match put_all(sink, bytes.items()) {
        Ok(()) => Ok(()),
        Err(_) => Err(Ended::WriteFault),
    }
}
