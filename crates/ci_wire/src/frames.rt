ghost use Rattle.std.specs.Prelude.{◌≡◌, ◌++◌, ◌↔◌, [], true, false, IfNone, IfOk, IfSome, IsErrOf, IsTrue, OnErr, OnOk, drop, vec_len, ◌≤◌};
ghost use Rattle.ci_wire.specs.Stream.{BeginsWithFrame, IsBad, IsPartial};

use crate::front::read_front;
use crate::{Frame, FrameFault};
use ci_base::OutOfMemory;
use std::alloc::Global;
use std::marker::Model;

/// Room for the frames of a short talk.
const FIRST_BYTES: usize = 1024;

/// Frames from bytes that come in pieces. Contracts see the bytes that were fed and not taken, and
/// whether they were found to begin no frame.
#[derive(Debug, Drop)]
pub struct Frames {
    bytes: Vec<u8>,
    // How many of the bytes were taken.
    taken: usize,
    bad: bool,
}

impl Model for Frames {
    ghost use Rattle.std.specs.Prelude.{◌≡◌, ◌≤◌, drop, true, vec_len};
    ghost use Rattle.ci_wire.specs.Stream.{Fed, IsBad};

    ghost Value = { Fed };

    ghost view = { λ f. record { bytes = drop f.taken f.bytes.items; bad = f.bad } };

    ghost invariant = { λ f. (f.taken ≤ vec_len f.bytes)
        × (f.bad ≡ true → IsBad (drop f.taken f.bytes.items)) };
}

impl Frames {
    /// No bytes.
    pub fn new(alloc: Global) -> Result<Frames, OutOfMemory>
        ensures { IfOk result (λ f. f ≡ record { bytes = []; bad = false }) }
    {
        Ok(Frames {
            bytes: Vec::with_capacity(alloc, FIRST_BYTES)?,
            taken: 0,
            bad: false,
        })
    }

    /// Appends bytes.
    pub fn feed(&mut self, bytes: &[u8]) -> Result<(), OutOfMemory>
        ensures ok { OnOk result (self.new.bytes ≡ self.old.bytes ++ bytes.now) }
        ensures err { OnErr result (self.new.bytes ≡ self.old.bytes) }
        ensures bad { self.new.bad ≡ self.old.bad }
    {
        self.taken = drop_taken(&mut self.bytes, self.taken);
        self.bytes.extend_from_slice(bytes)?;
        Ok(())
    }

    /// Takes the frame that begins the bytes. None: they are less than a frame, and some may still
    /// come that make one. Bytes that begin no frame are bad for good.
    pub fn next(&mut self) -> Result<Option<Frame>, FrameFault>
        ensures some { IfOk result (λ o. IfSome o (λ f.
            BeginsWithFrame self.old.bytes f self.new.bytes)) }
        ensures none { IfOk result (λ o. IfNone o
            (IsPartial self.old.bytes × (self.new.bytes ≡ self.old.bytes))) }
        ensures bad { IsErrOf result FrameFault.BadFrame → IsBad self.old.bytes }
        ensures found { IsErrOf result FrameFault.BadFrame → self.new.bad ≡ true }
        ensures err { OnErr result (self.new.bytes ≡ self.old.bytes) }
        ensures again { self.old.bad ≡ true → result ≡ Err FrameFault.BadFrame }
        ensures good { OnOk result (self.new.bad ≡ false) }
        ensures memory { IsErrOf result FrameFault.OutOfMemory → self.new.bad ≡ self.old.bad }
    {
        if self.bad {
            return Err(FrameFault::BadFrame);
        }
        let alloc = *self.bytes.allocator();
        match read_front(alloc, self.held()) {
            Ok(Some((frame, count))) => {
                self.taken += count;
                Ok(Some(frame))
            }
            Ok(None) => Ok(None),
            Err(FrameFault::BadFrame) => {
                self.bad = true;
                Err(FrameFault::BadFrame)
            }
            Err(FrameFault::OutOfMemory) => Err(FrameFault::OutOfMemory),
        }
    }

    /// Whether no byte of an unfinished frame is held: all that were fed were taken.
    pub fn is_empty(&self) -> bool
        ensures { IsTrue result ↔ (self.now.bytes ≡ []) }
    {
        self.held().is_empty()
    }

    /// Another value with the same bytes to come.
    pub fn copy(&self, alloc: Global) -> Result<Frames, OutOfMemory>
        ensures { IfOk result (λ f. f ≡ self.now) }
    {
        Ok(Frames {
            bytes: Vec::from_slice(alloc, self.held())?,
            taken: 0,
            bad: self.bad,
        })
    }

    fn held(&self) -> &[u8]
        ensures { result.now ≡ self.now.bytes }
    {
        let (_, held) = self.bytes.as_slice().split_at(self.taken);
        held
    }
}

// Moves the bytes that weren't taken to the front, once more were taken than are left: so each byte
// is moved for one that was taken. Answers how many taken bytes still stand before them.
fn drop_taken(bytes: &mut Vec<u8>, taken: usize) -> usize
    requires { taken ≤ vec_len bytes.old }
    ensures kept { drop result bytes.new.items ≡ drop taken bytes.old.items }
    ensures within { result ≤ vec_len bytes.new }
{
    let left = bytes.len() - taken;
    if taken <= left {
        return taken;
    }
    bytes.rotate_left(taken);
    bytes.truncate(left);
    0
}
