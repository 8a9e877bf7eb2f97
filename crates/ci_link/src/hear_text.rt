// The answer to GetText.
ghost use Rattle.std.specs.Prelude.{◌≡◌, ◌==◌, ◌||◌, ◌&&◌, nat_lt, length, ◌++◌, ℕ, List, [], ◌∷◌, IfOk, OnOk};
ghost use Rattle.ci_chunk.specs.Sizes.{IsBounded};
ghost use Rattle.ci_chunk.specs.Talk.{Talk as Exchanged};
ghost use Rattle.ci_link.specs.Document.{Hears, IsNearer, Stands, left};
ghost use Rattle.ci_link.specs.Reading as reading;

use crate::document::{CLIP_BYTES, Document, Next};
use crate::hear::{end_chunk, of_status};
use crate::stage::Stage;
use ci_base::{OutOfMemory, Text};
use ci_chunk::{Answer, Outcome, Piece, StatChunk, Status, Transcript};
use ci_words::cut;

/// The answer to GetText: a part of the text, or a status that ends it.
pub(crate) fn hear_text(
    mut document: Document,
    chunk: StatChunk,
    text: Text,
    answer: Answer,
) -> Result<Next, OutOfMemory>
    requires { (path : List ℕ) × (talk : Exchanged)
        × Stands path (record document { stage = Stage.Text chunk text }) talk }
    ensures next { IfOk result (λ next. (path : List ℕ) (talk : Exchanged) →
        Stands path (record document { stage = Stage.Text chunk text }) talk →
        Hears path talk reading.text_call answer next) }
    ensures nearer { IfOk result
        (λ next. IsNearer (left (record document { stage = Stage.Text chunk text })) next) }
{
    match answer {
        Answer::Text { status, text: part } => add_text(document, chunk, text, status, &part),
        Answer::Status(status) => {
            if !ends_text(status) {
                return Ok(of_status(status));
            }
            end_text(&mut document.pieces, chunk, text)?;
            document.stage = Stage::Chunks;
            Ok(Next::Ask(document))
        }
        Answer::Chunk(_) => Ok(Next::Illegal),
        Answer::Value { .. } => Ok(Next::Illegal),
    }
}

// Appends a part to the text, or as much of it as fits.
fn add_text(
    mut document: Document,
    chunk: StatChunk,
    text: Text,
    status: Status,
    part: &Text,
) -> Result<Next, OutOfMemory>
    requires { (path : List ℕ) × (talk : Exchanged)
        × Stands path (record document { stage = Stage.Text chunk text }) talk }
    ensures next { IfOk result (λ next. (path : List ℕ) (talk : Exchanged) →
        Stands path (record document { stage = Stage.Text chunk text }) talk →
        Hears path talk reading.text_call (Answer.Text status part.entry.now) next) }
    ensures nearer { IfOk result
        (λ next. IsNearer (left (record document { stage = Stage.Text chunk text })) next) }
{
    let size = document.size.saturating_add(part.as_str().len());
    if size > CLIP_BYTES {
        let room = CLIP_BYTES.saturating_sub(document.size);
        let text = join(text, cut(part.as_str(), room))?;
        end_text(&mut document.pieces, chunk, text)?;
        return Ok(Next::Ends(Outcome::Done(document.pieces)));
    }
    let text = join(text, part.as_str())?;
    document.size = size;
    if goes_on(status, part) {
        document.stage = Stage::Text { chunk, text };
        return Ok(Next::Ask(document));
    }
    end_text(&mut document.pieces, chunk, text)?;
    document.stage = Stage::Chunks;
    Ok(Next::Ask(document))
}

fn join(text: Text, part: &str) -> Result<Text, OutOfMemory>
    ensures { IfOk result (λ t. t ≡ text ++ part.now) }
{
    let mut joined = text.into_string();
    joined.push_str(part)?;
    Ok(Text::from(joined))
}

fn end_text(pieces: &mut Transcript, chunk: StatChunk, text: Text) -> Result<(), OutOfMemory>
    requires { IsBounded (pieces.old ++ Piece.Words chunk text ∷ []) }
    ensures { OnOk result (pieces.new ≡ pieces.old ++ Piece.Words chunk text ∷ []) }
{
    end_chunk(pieces, Piece::Words { chunk, text })
}

// A text goes on after a part that isn't empty, and isn't told to be the last.
fn goes_on(status: Status, part: &Text) -> bool
    ensures { result ≡ ((status.0 == 0) && nat_lt 0 (length part.now)) }
{
    status == Status::S_OK && !part.as_str().is_empty()
}

fn ends_text(status: Status) -> bool
    ensures { result ≡ ((status.0 == 0x80041701) || (status.0 == 0x80041705)) }
{
    status == Status::FILTER_E_NO_MORE_TEXT || status == Status::FILTER_E_NO_TEXT
}
