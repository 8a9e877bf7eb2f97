ghost use Rattle.std.specs.Prelude.{◌≡◌, IfOk};

use ci_base::OutOfMemory;
use ci_chunk::{Answer, Call};
use std::alloc::Global;
use thiserror::Error;

/// What goes over the pipe: a call from the server, or an answer from its daemon.
#[derive(Debug, PartialEq, Eq, Drop)]
pub enum Frame {
    Call(Call),
    Answer(Answer),
}

/// Why no frame was read.
#[derive(Clone, Copy, Debug, PartialEq, Eq, Error)]
pub enum FrameFault {
    #[error("the bytes begin no frame")]
    BadFrame,
    #[error("out of memory")]
    OutOfMemory,
}

impl From<OutOfMemory> for FrameFault {
    ghost use Rattle.ci_wire.specs.declared.frame.FrameFault.TheVariants.{OutOfMemory as NoMemory};

    ghost from_gives = { λ _ e. e ≡ NoMemory };

    fn from(_refused: OutOfMemory) -> FrameFault {
        FrameFault::OutOfMemory
    }
}

impl Frame {
    /// Another frame that equals this one.
    pub fn copy(&self, alloc: Global) -> Result<Frame, OutOfMemory>
        ensures { IfOk result (λ f. f ≡ self.now) }
    {
        match self {
            Frame::Call(call) => Ok(Frame::Call(call.copy(alloc)?)),
            Frame::Answer(answer) => Ok(Frame::Answer(answer.copy(alloc)?)),
        }
    }
}
