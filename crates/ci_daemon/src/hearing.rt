ghost use Rattle.std.specs.Prelude.{◌≡◌, ◌≢◌, ◌⊎◌, [], IfErr, IfNone, IfOk, IfSome, IsErrOf, OnOk, vec_len};
ghost use Rattle.std.specs.Io.KnownBytes.{IsAtEnd};
ghost use Rattle.ci_wire.specs.Stream.{BeginsWithFrame, IsBad, IsPartial};
ghost use Rattle.ci_daemon.specs.Hearing.{Falters, FeedsSome, Hears, HearsCall, Lapses, ReadCounts};

use crate::Ended;
use ci_base::OutOfMemory;
use ci_chunk::Call;
use ci_io::Source;
use ci_wire::{Frame, FrameFault, Frames};
use std::alloc::Global;
use std::marker::Model;

/// How many bytes are taken at once, at most.
const BUFFER_BYTES: usize = 4096;

/// The frames of a source. Contracts see the bytes that were taken from it and are held.
#[derive(Drop)]
pub(crate) struct Hearing {
    frames: Frames,
    buffer: Vec<u8>,
}

impl Model for Hearing {
    ghost use Rattle.std.specs.Prelude.{ℕ, ◌<◌, List, vec_len};

    ghost Value = { List ℕ };

    ghost view = { λ h. h.frames.bytes };

    ghost invariant = { λ h. 0 < vec_len h.buffer };
}

impl Hearing {
    /// No bytes yet.
    pub fn new(alloc: Global) -> Result<Hearing, OutOfMemory>
        ensures { IfOk result (λ h. h ≡ []) }
    {
        Ok(Hearing {
            frames: Frames::new(alloc)?,
            buffer: room_for(alloc, BUFFER_BYTES)?,
        })
    }

    /// Takes the next call.
    pub fn next_call<S: Source>(&mut self, source: &mut S) -> Result<Call, Ended>
        ensures call { IfOk result
            (HearsCall self.old (S.left source.old) self.new (S.left source.new)) }
        ensures none { IfErr result (Falters self.old (S.left source.old) (S.left source.new)) }
        ensures kept { OnOk result (S.faults source.new ≡ S.faults source.old) }
        ensures count { IfErr result
            (ReadCounts (S.faults source.old) (S.faults source.new)) }
    {
        match self.next_frame(source) {
            Ok(Frame::Call(call)) => Ok(call),
            Ok(Frame::Answer(_)) => Err(Ended::BadFrame),
            Err(ended) => Err(ended),
        }
    }

    // Takes the next frame.
    fn next_frame<S: Source>(&mut self, source: &mut S) -> Result<Frame, Ended>
        ensures frame { IfOk result
            (Hears self.old (S.left source.old) self.new (S.left source.new)) }
        ensures none { IfErr result (Falters self.old (S.left source.old) (S.left source.new)) }
        ensures kept { OnOk result (S.faults source.new ≡ S.faults source.old) }
        ensures count { IfErr result
            (ReadCounts (S.faults source.old) (S.faults source.new)) }
    {
        loop {
            match self.take_frame() {
                Ok(Some(frame)) => return Ok(frame),
                Ok(None) => {}
                Err(FrameFault::BadFrame) => return Err(Ended::BadFrame),
                Err(FrameFault::OutOfMemory) => return Err(Ended::OutOfMemory),
            }
            match self.receive(source) {
                Ok(0) => return Err(self.end()),
                Ok(_) => {}
                Err(ended) => return Err(ended),
            }
        }
    }

    // Takes the frame that begins the bytes that are held.
    fn take_frame(&mut self) -> Result<Option<Frame>, FrameFault>
        ensures some { IfOk result (λ o. IfSome o (λ f. BeginsWithFrame self.old f self.new)) }
        ensures none { IfOk result (λ o. IfNone o (IsPartial self.old)) }
        ensures kept { IfOk result (λ o. IfNone o (self.new ≡ self.old)) }
        ensures bad { IsErrOf result FrameFault.BadFrame → IsBad self.old }
    {
        self.frames.next()
    }

    // Takes more bytes, and answers how many: 0 at the source's end.
    fn receive<S: Source>(&mut self, source: &mut S) -> Result<usize, Ended>
        ensures fed { IfOk result
            (FeedsSome self.old (S.left source.old) self.new (S.left source.new)) }
        ensures over { IfOk result (λ n. n ≡ 0 → IsAtEnd (S.left source.new)) }
        ensures none { IfErr result (Lapses (S.left source.old) (S.left source.new)) }
        ensures kept { OnOk result (S.faults source.new ≡ S.faults source.old) }
        ensures count { IfErr result
            (ReadCounts (S.faults source.old) (S.faults source.new)) }
    {
        match source.take(&mut self.buffer) {
            Ok(count) => {
                self.frames.feed(&self.buffer[..count])?;
                Ok(count)
            }
            Err(_) => Err(Ended::ReadFault),
        }
    }

    // What the source's end means: that it ended within a frame, unless none is begun.
    fn end(&self) -> Ended
        ensures quiet { result ≡ Ended.Quiet → self.now ≡ [] }
        ensures within { result ≡ Ended.BadFrame → self.now ≢ [] }
        ensures two { (result ≡ Ended.Quiet) ⊎ (result ≡ Ended.BadFrame) }
    {
        if self.frames.is_empty() {
            Ended::Quiet
        } else {
            Ended::BadFrame
        }
    }
}

fn room_for(alloc: Global, count: usize) -> Result<Vec<u8>, OutOfMemory>
    ensures { IfOk result (λ v. vec_len v ≡ count) }
{
    Ok(vec![in alloc; 0; count]?)
}
