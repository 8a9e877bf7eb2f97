ghost use Rattle.std.specs.Prelude.{◌≡◌, ◌++◌, ◌<◌, ◌↔◌, [], ◌∷◌, length, IfOk, IsErrOf, OnOk, OnErr};
ghost use Rattle.ci_chunk.specs.Plain.{paragraph, plain};
ghost use Rattle.ci_chunk.specs.Sizes.{IsBounded, piece_length};

use crate::{Break, ChunkState, Piece, StatChunk, TranscriptFault};
use ci_base::{OutOfMemory, PathText, PropNo, Text, Value};
use std::alloc::Global;
use std::marker::Model;

const CONTENTS: PropNo = PropNo(1);

const FILENAME: PropNo = PropNo(2);

const SIZE: PropNo = PropNo(3);

/// The most pieces: a document has at most so many chunks.
const PIECES_MOST: usize = 65_536;

/// The most bytes of all texts.
const TEXT_MOST: usize = 1_048_576;

/// What a filter said of a whole document, chunk by chunk: at most 65,536 pieces, with at most
/// 1,048,576 bytes of text. Contracts see the list of its pieces.
#[derive(Debug, Drop)]
pub struct Transcript {
    pieces: Vec<Piece>,
    /// The bytes of all texts.
    text: usize,
}

impl Model for Transcript {
    ghost use Rattle.std.specs.Prelude.{◌≡◌, List};
    ghost use Rattle.ci_chunk.specs.Sizes.{IsBounded, text_length};
    ghost use Rattle.ci_chunk.specs.declared.piece.Piece.{Piece};

    ghost Value = { List Piece };

    ghost view = { λ t. t.pieces.items };

    ghost invariant = { λ t. (t.text ≡ text_length t.pieces.items) × IsBounded t.pieces.items };
}

impl Transcript {
    /// No pieces, and no memory taken.
    pub fn new(alloc: Global) -> Transcript
        ensures { result ≡ [] }
    {
        Transcript {
            pieces: Vec::new(alloc),
            text: 0,
        }
    }

    /// Appends one piece, which is dropped at a refusal.
    pub fn add(&mut self, piece: Piece) -> Result<(), TranscriptFault>
        ensures ok { OnOk result (self.new ≡ self.old ++ piece ∷ []) }
        ensures err { OnErr result (self.new ≡ self.old) }
        ensures too_long { IsErrOf result TranscriptFault.TooLong
            ↔ ¬ IsBounded (self.old ++ piece ∷ []) }
    {
        let more = text_of(&piece);
        if self.pieces.len() == PIECES_MOST || more > TEXT_MOST - self.text {
            return Err(TranscriptFault::TooLong);
        }
        if self.pieces.push(piece).is_err() {
            return Err(TranscriptFault::OutOfMemory);
        }
        self.text += more;
        Ok(())
    }

    /// The pieces. Each transcript is within its bounds.
    pub fn items(&self) -> &[Piece]
        ensures pieces { result.now ≡ self.now }
        ensures bounded { IsBounded result.now }
    {
        self.pieces.as_slice()
    }

    /// Another transcript of the same pieces.
    pub fn copy(&self, alloc: Global) -> Result<Transcript, OutOfMemory>
        ensures { IfOk result (λ t. t ≡ self.now) }
    {
        Ok(Transcript {
            pieces: copy_pieces(alloc, self.pieces.as_slice())?,
            text: self.text,
        })
    }

    /// The pieces as a `Vec`, without a copy.
    pub fn into_vec(self) -> Vec<Piece>
        ensures { result.items ≡ self }
    {
        self.pieces
    }

    /// The transcript of a plain text: the name of its file, its size, and the text.
    pub fn plain(alloc: Global, path: &PathText, text: &str) -> Result<Transcript, TranscriptFault>
        ensures ok { IfOk result (λ t. t ≡ plain path.now text.now) }
        ensures too_long { IsErrOf result TranscriptFault.TooLong → 1048576 < length text.now }
    {
        let mut transcript = Transcript::new(alloc);
        let name = Text::of(alloc, path.last_part())?;
        transcript.add(Piece::Held {
            chunk: paragraph(1, ChunkState::Value, FILENAME),
            value: Some(Value::Str(name)),
        })?;
        transcript.add(Piece::Held {
            chunk: paragraph(2, ChunkState::Value, SIZE),
            value: Some(Value::Int(text.len() as i64)),
        })?;
        transcript.add(Piece::Words {
            chunk: paragraph(3, ChunkState::Text, CONTENTS),
            text: Text::of(alloc, text)?,
        })?;
        Ok(transcript)
    }
}

fn text_of(piece: &Piece) -> usize
    ensures { result ≡ piece_length piece.now }
{
    match piece {
        Piece::Words { text, .. } => text.as_str().len(),
        Piece::Held { .. } => 0,
    }
}

fn copy_pieces(alloc: Global, pieces: &[Piece]) -> Result<Vec<Piece>, OutOfMemory>
    ensures { IfOk result (λ copied. copied.items ≡ pieces.now) }
{
    let mut copied = Vec::new(alloc);
    for piece in pieces {
        copied.push(piece.copy(alloc)?)?;
    }
    Ok(copied)
}

fn paragraph(id: u32, state: ChunkState, property: PropNo) -> StatChunk
    ensures { result ≡ paragraph id state property }
{
    StatChunk {
        id,
        break_type: Break::Eop,
        state,
        locale: 0,
        property,
        source: id,
        start: 0,
        length: 0,
    }
}
