ghost use Rattle.std.specs.Prelude.{◌≡◌, ◌<◌, ◌^◌, ◌++◌, ◌∷◌, [], false, IfErr, IfNone, IfOk, IsErrOf, IfSome, OnErr, OnOk, length, vec_len};
ghost use Rattle.ci_link.specs.Line.{Exchanges, Falters, GivesSome, Hands, ReceivesNone, ReceivesSome, RunsShort, Unanswered};
ghost use Rattle.std.specs.Io.KnownBytes.{Appends};
ghost use Rattle.ci_io.specs.Causes.{HasCause};
ghost use Rattle.ci_io.specs.Putting.{AppendsFront};
ghost use Rattle.ci_wire.specs.Stream.{BeginsWithFrame, IsBad, IsPartial};
ghost use Rattle.ci_link.specs.Talking.{DiesWithin, Reads, RunsOutAt, RunsOutWithin, TalksAs};

use crate::document::{Document, Next};
use crate::send::send_all;
use crate::stop::Stop;
use crate::{Link, NoDaemon, Talk};
use ci_base::{OutOfMemory, PathText};
use ci_change::Batch;
use ci_chunk::{Answer, Call, Outcome, Outcomes};
use ci_io::Failed;
use ci_wire::{Frame, FrameFault, Frames, encode_call};
use std::alloc::Global;
use std::marker::Model;

/// How many bytes are received at once, at most.
const BUFFER_BYTES: usize = 4096;

/// A daemon that filters documents, behind its link. Contracts see what goes over the pipe.
#[derive(Drop)]
pub struct Daemon<L: Link + Drop> {
    link: L,
    frames: Frames,
    buffer: Vec<u8>,
}

impl<L: Link + Drop> Model for Daemon<L> {
    ghost use Rattle.std.specs.Prelude.{◌<◌, vec_len};
    ghost use Rattle.ci_link.specs.Line.{Speaking};

    ghost Value = { Speaking };

    ghost view = { λ d. record {
      sent = L.sent d.link;
      given = L.given d.link;
      more = L.more d.link;
      faults = L.faults d.link;
      fed = d.frames;
    } };

    ghost invariant = { λ d. 0 < vec_len d.buffer };
}

impl<L: Link + Drop> Daemon<L> {
    /// A daemon behind this link, of which nothing was read yet.
    pub fn new(alloc: Global, link: L) -> Result<Daemon<L>, NoDaemon<L>>
        ensures ok { IfOk result (λ d. d ≡ record {
          sent = L.sent link;
          given = L.given link;
          more = L.more link;
          faults = L.faults link;
          fed = record { bytes = []; bad = false };
        }) }
        ensures err { IfErr result (λ refused. refused.link ≡ link) }
    {
        match (Frames::new(alloc), room_for(alloc, BUFFER_BYTES)) {
            (Ok(frames), Ok(buffer)) => Ok(Daemon {
                link,
                frames,
                buffer,
            }),
            _ => Err(NoDaemon { link }),
        }
    }

    /// The link, as far as it was read.
    pub fn into_link(self) -> L
        ensures sent { L.sent result ≡ self.sent }
        ensures given { L.given result ≡ self.given }
        ensures more { L.more result ≡ self.more }
        ensures faults { L.faults result ≡ self.faults }
    {
        self.link
    }

    /// Reads the documents of a batch, in order. A talk may be had after one that finished.
    pub fn talk(&mut self, alloc: Global, batch: &Batch) -> Result<Talk, OutOfMemory>
        requires some { 0 < length batch.now.docs }
        requires few { length batch.now.docs < 2 ^ 32 }
        ensures ok { IfOk result (TalksAs self.old self.new batch.now.docs) }

        // What was sent until memory ran out is calls that follow the rules too.
        ensures err { OnErr result (RunsOutAt self.old self.new batch.now.docs) }
    {
        let mut outcomes = Outcomes::new(alloc);
        for (place, doc) in batch.docs.items().iter().enumerate() {
            match self.read_document(alloc, &doc.0) {
                Ok(outcome) => outcomes.add(outcome)?,
                Err(Stop::Died) => {
                    return Ok(Talk::Died {
                        charged: place as u32,
                    });
                }
                Err(Stop::OutOfMemory) => return Err(OutOfMemory),
            }
        }
        Ok(Talk::Finished(outcomes))
    }

    // Reads a document to its outcome.
    fn read_document(&mut self, alloc: Global, path: &PathText) -> Result<Outcome, Stop>
        ensures read { IfOk result (Reads self.old self.new path.now) }
        ensures died { IsErrOf result Stop.Died → DiesWithin self.old self.new path.now }
        ensures memory { IsErrOf result Stop.OutOfMemory →
            RunsOutWithin self.old self.new path.now }
    {
        let mut document = Document::new(alloc);
        loop {
            let call = document.call(alloc, path)?;
            let answer = self.ask(alloc, &call)?;
            match document.hear(alloc, answer)? {
                Next::Ask(next) => document = next,
                Next::Ends(outcome) => return Ok(outcome),
                Next::Illegal => return Err(Stop::Died),
            }
        }
    }

    // Sends the call, and takes its answer.
    fn ask(&mut self, alloc: Global, call: &Call) -> Result<Answer, Stop>
        ensures answered { IfOk result
            (λ answer. Exchanges self.old self.new ((call.now, answer) ∷ [])) }
        ensures died { IsErrOf result Stop.Died → Unanswered self.old self.new call.now }
        ensures memory { IsErrOf result Stop.OutOfMemory → RunsShort self.old self.new call.now }
    {
        let bytes = encode_call(alloc, call)?;
        match self.send(bytes.items()) {
            Ok(()) => {}
            Err(_) => return Err(Stop::Died),
        }
        match self.next_frame() {
            Ok(Frame::Answer(answer)) => Ok(answer),
            Ok(Frame::Call(_)) => Err(Stop::Died),
            Err(stop) => Err(stop),
        }
    }

    fn send(&mut self, bytes: &[u8]) -> Result<(), Failed>
        ensures ok { OnOk result (Appends self.old.sent self.new.sent bytes.now) }
        ensures err { OnErr result (AppendsFront self.old.sent self.new.sent bytes.now) }
        ensures given { self.new.given ≡ self.old.given }
        ensures more { self.new.more ≡ self.old.more }
        ensures fed { self.new.fed ≡ self.old.fed }
        ensures cause { HasCause self.old.faults self.new.faults result }
    {
        send_all(&mut self.link, bytes)
    }

    // The next frame of the bytes that the daemon gives.
    fn next_frame(&mut self) -> Result<Frame, Stop>
        ensures frame { IfOk result (Hands self.old self.new) }
        ensures died { IsErrOf result Stop.Died → Falters self.old self.new }
        ensures memory { IsErrOf result Stop.OutOfMemory → GivesSome self.old self.new }
    {
        loop {
            match self.take_frame() {
                Ok(Some(frame)) => return Ok(frame),
                Ok(None) => {}
                Err(FrameFault::BadFrame) => return Err(Stop::Died),
                Err(FrameFault::OutOfMemory) => return Err(Stop::OutOfMemory),
            }
            if self.receive()? == 0 {
                return Err(Stop::Died);
            }
        }
    }

    // Takes the frame that begins the bytes that are held.
    fn take_frame(&mut self) -> Result<Option<Frame>, FrameFault>
        ensures some { IfOk result (λ o. IfSome o
            (λ f. BeginsWithFrame self.old.fed.bytes f self.new.fed.bytes)) }
        ensures none { IfOk result (λ o. IfNone o (IsPartial self.old.fed.bytes)) }
        ensures kept { IfOk result (λ o. IfNone o (self.new.fed.bytes ≡ self.old.fed.bytes)) }
        ensures bad { IsErrOf result FrameFault.BadFrame → IsBad self.old.fed.bytes }
        ensures sent { self.new.sent ≡ self.old.sent }
        ensures given { self.new.given ≡ self.old.given }
        ensures more { self.new.more ≡ self.old.more }
        ensures faults { self.new.faults ≡ self.old.faults }
    {
        self.frames.next()
    }

    // Takes more bytes from the link. 0 is the daemon's end.
    fn receive(&mut self) -> Result<usize, Stop>
        ensures some { IfOk result (ReceivesSome self.old self.new) }
        ensures ended { IfOk result (λ n. n ≡ 0 → IfSome self.new.more (λ m. m ≡ false)) }
        ensures died { IsErrOf result Stop.Died → ReceivesNone self.old self.new }
        ensures memory { IsErrOf result Stop.OutOfMemory → GivesSome self.old self.new }
    {
        match self.link.receive(&mut self.buffer) {
            Ok(count) => {
                self.frames.feed(&self.buffer[..count])?;
                Ok(count)
            }
            Err(_) => Err(Stop::Died),
        }
    }
}

fn room_for(alloc: Global, count: usize) -> Result<Vec<u8>, OutOfMemory>
    ensures { IfOk result (λ v. vec_len v ≡ count) }
{
    Ok(vec![in alloc; 0; count]?)
}
