ghost use Rattle.std.specs.Prelude.{◌≡◌, IfOk};

use crate::{StatChunk, Status};
use ci_base::{OutOfMemory, PathText, Text, Value};
use std::alloc::Global;
use thiserror::Error;

/// What a filter is asked.
#[derive(Debug, PartialEq, Eq, Drop)]
pub enum Call {
    /// To begin with the document of this path.
    Init { flags: u32, path: PathText },
    /// For the next chunk.
    GetChunk,
    /// For the next part of the chunk's text, as a rule of at most `max` bytes.
    GetText { max: u32 },
    /// For the chunk's value.
    GetValue,
}

/// What a filter says.
#[derive(Debug, PartialEq, Eq, Drop)]
pub enum Answer {
    Status(Status),
    Chunk(StatChunk),
    Text { status: Status, text: Text },
    Value { status: Status, value: Value },
}

/// Why a filter gave no chunk, no text or no value.
#[derive(Clone, Copy, Debug, PartialEq, Eq, Error)]
pub enum FilterStop {
    #[error("the filter answered the status {:#010x}", .0.0)]
    Status(Status),
    #[error("out of memory")]
    OutOfMemory,
}

impl From<OutOfMemory> for FilterStop {
    ghost use Rattle.ci_chunk.specs.declared.talk.FilterStop.TheVariants.{OutOfMemory as NoMemory};

    ghost from_gives = { λ _ e. e ≡ NoMemory };

    fn from(_refused: OutOfMemory) -> FilterStop {
        FilterStop::OutOfMemory
    }
}

impl Call {
    /// Another call that equals this one.
    pub fn copy(&self, alloc: Global) -> Result<Call, OutOfMemory>
        ensures { IfOk result (λ c. c ≡ self.now) }
    {
        match self {
            Call::Init { flags, path } => Ok(Call::Init {
                flags: *flags,
                path: path.copy(alloc)?,
            }),
            Call::GetChunk => Ok(Call::GetChunk),
            Call::GetText { max } => Ok(Call::GetText { max: *max }),
            Call::GetValue => Ok(Call::GetValue),
        }
    }
}

impl Answer {
    /// Another answer that equals this one.
    pub fn copy(&self, alloc: Global) -> Result<Answer, OutOfMemory>
        ensures { IfOk result (λ a. a ≡ self.now) }
    {
        match self {
            Answer::Status(status) => Ok(Answer::Status(*status)),
            Answer::Chunk(chunk) => Ok(Answer::Chunk(*chunk)),
            Answer::Text { status, text } => Ok(Answer::Text {
                status: *status,
                text: text.copy(alloc)?,
            }),
            Answer::Value { status, value } => Ok(Answer::Value {
                status: *status,
                value: value.copy(alloc)?,
            }),
        }
    }
}
