ghost use Rattle.std.specs.Prelude.{◌≡◌, IfOk};

use crate::StatChunk;
use ci_base::{OutOfMemory, Text, Value};
use std::alloc::Global;

/// What a chunk came to: its whole text, or its value, if there was one.
#[derive(Debug, PartialEq, Eq, Drop)]
pub enum Piece {
    Words {
        chunk: StatChunk,
        text: Text,
    },
    Held {
        chunk: StatChunk,
        value: Option<Value>,
    },
}

impl Piece {
    /// Another piece that equals this one.
    pub fn copy(&self, alloc: Global) -> Result<Piece, OutOfMemory>
        ensures { IfOk result (λ p. p ≡ self.now) }
    {
        match self {
            Piece::Words { chunk, text } => Ok(Piece::Words {
                chunk: *chunk,
                text: text.copy(alloc)?,
            }),
            Piece::Held { chunk, value } => Ok(Piece::Held {
                chunk: *chunk,
                value: copy_value(alloc, value)?,
            }),
        }
    }
}

fn copy_value(alloc: Global, value: &Option<Value>) -> Result<Option<Value>, OutOfMemory>
    ensures { IfOk result (λ copied. copied ≡ value.now) }
{
    match value {
        Some(value) => Ok(Some(value.copy(alloc)?)),
        None => Ok(None),
    }
}
