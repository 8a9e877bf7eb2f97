// The answer to GetValue.
ghost use Rattle.std.specs.Prelude.{◌≡◌, ◌==◌, ◌||◌, ◌++◌, ℕ, List, [], ◌∷◌, IfOk, OnOk};
ghost use Rattle.ci_chunk.specs.Sizes.{IsBounded};
ghost use Rattle.ci_chunk.specs.Talk.{Talk as Exchanged};
ghost use Rattle.ci_chunk.specs.declared.status.Status.{Status as Code};
ghost use Rattle.ci_link.specs.Document.{Hears, IsNearer, Stands, left};
ghost use Rattle.ci_link.specs.Pieces.{bytes_of_value};

use crate::document::{CLIP_BYTES, Document, Next};
use crate::hear::{end_chunk, of_status};
use crate::stage::Stage;
use ci_base::{OutOfMemory, Value};
use ci_chunk::{Answer, Call, Outcome, Piece, StatChunk, Status, Transcript};

/// The answer to GetValue: the value, or a status instead of it.
pub(crate) fn hear_value(
    mut document: Document,
    chunk: StatChunk,
    answer: Answer,
) -> Result<Next, OutOfMemory>
    requires { (path : List ℕ) × (talk : Exchanged)
        × Stands path (record document { stage = Stage.Value chunk }) talk }
    ensures next { IfOk result (λ next. (path : List ℕ) (talk : Exchanged) →
        Stands path (record document { stage = Stage.Value chunk }) talk →
        Hears path talk Call.GetValue answer next) }
    ensures nearer { IfOk result
        (λ next. IsNearer (left (record document { stage = Stage.Value chunk })) next) }
{
    match answer {
        Answer::Value { status: _, value } => add_value(document, chunk, value),
        Answer::Status(status) => {
            if !ends_value(status) {
                return Ok(of_status(status));
            }
            end_value(&mut document.pieces, chunk, None)?;
            document.stage = Stage::Chunks;
            Ok(Next::Ask(document))
        }
        Answer::Chunk(_) => Ok(Next::Illegal),
        Answer::Text { .. } => Ok(Next::Illegal),
    }
}

// Records the value, unless it doesn't fit.
fn add_value(mut document: Document, chunk: StatChunk, value: Value) -> Result<Next, OutOfMemory>
    requires { (path : List ℕ) × (talk : Exchanged)
        × Stands path (record document { stage = Stage.Value chunk }) talk }
    ensures next { IfOk result (λ next. (path : List ℕ) (talk : Exchanged) (status : Code) →
        Stands path (record document { stage = Stage.Value chunk }) talk →
        Hears path talk Call.GetValue (Answer.Value status value) next) }
    ensures nearer { IfOk result
        (λ next. IsNearer (left (record document { stage = Stage.Value chunk })) next) }
{
    let size = document.size.saturating_add(value_len(&value));
    if size > CLIP_BYTES {
        end_value(&mut document.pieces, chunk, None)?;
        return Ok(Next::Ends(Outcome::Done(document.pieces)));
    }
    end_value(&mut document.pieces, chunk, Some(value))?;
    document.size = size;
    document.stage = Stage::Chunks;
    Ok(Next::Ask(document))
}

fn end_value(
    pieces: &mut Transcript,
    chunk: StatChunk,
    value: Option<Value>,
) -> Result<(), OutOfMemory>
    requires { IsBounded (pieces.old ++ Piece.Held chunk value ∷ []) }
    ensures { OnOk result (pieces.new ≡ pieces.old ++ Piece.Held chunk value ∷ []) }
{
    end_chunk(pieces, Piece::Held { chunk, value })
}

fn value_len(value: &Value) -> usize
    ensures { result ≡ bytes_of_value value.now }
{
    match value {
        Value::Int(_) => 0,
        Value::Str(text) => text.as_str().len(),
    }
}

fn ends_value(status: Status) -> bool
    ensures { result ≡ ((status.0 == 0x80041702) || (status.0 == 0x80041706)) }
{
    status == Status::FILTER_E_NO_MORE_VALUES || status == Status::FILTER_E_NO_VALUES
}
