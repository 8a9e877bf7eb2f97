ghost use Rattle.std.specs.Prelude.{◌≡◌, ◌<◌, ◌+◌, ◌-◌, ◌^◌, [], ◌∷◌, IfOk, IfSome, IsCharBoundary, MatchOption, drop, length, not};
ghost use Rattle.std.specs.List.{position_or_len};
ghost use Rattle.ci_pieces.specs.Bytes as byte;
ghost use Rattle.ci_pieces.specs.Front.{due_after as due_behind};
ghost use Rattle.ci_pieces.specs.Pieces as spec;

use crate::Piece;
use crate::bytes::is_blank;
use crate::front::{Due, due_after, front};
use ci_base::OutOfMemory;
use std::alloc::Global;

/// The pieces of a query, in order.
pub fn pieces<'a>(alloc: Global, text: &'a str) -> Result<Vec<Piece<'a>>, OutOfMemory>
    ensures { IfOk result (λ list. list.items ≡ spec.pieces text.entry.now) }
{
    let mut list = Vec::new(alloc);
    let mut due = Due::Any;
    let mut rest = text;
    while let Some((piece, behind)) = next_piece(rest, text.len() - rest.len(), due) {
        due = due_after(piece.kind());
        rest = behind;
        list.push(piece)?;
    }
    Ok(list)
}

// The first piece of a text that stands at a place, and the text behind it.
fn next_piece(text: &str, at: usize, due: Due) -> Option<(Piece<'_>, &str)>
    requires { at + length text.now < 2 ^ 64 }
    ensures first { MatchOption result (spec.pieces_from due at 0 text.now ≡ [])
        (λ found. spec.pieces_from due at 0 text.now ≡ found.0 ∷ spec.pieces_from
        (due_behind found.0.kind) (at + (length text.now - length found.1.now)) 0 found.1.now) }
    ensures shorter { IfSome result (λ found. length found.1.now < length text.now) }
{
    let begun = past_blanks(text);
    if begun.is_empty() {
        return None;
    }
    let found = front(begun, due);
    Some((
        Piece::new(found.kind, found.says, at + (text.len() - begun.len())),
        found.rest,
    ))
}

fn past_blanks(text: &str) -> &str
    ensures { result.now ≡ drop (position_or_len (λ b. not (byte.is_blank b)) text.now) text.now }
{
    &text[len_of_blanks(text)..]
}

fn len_of_blanks(text: &str) -> usize
    ensures first { result ≡ position_or_len (λ b. not (byte.is_blank b)) text.now }
    ensures boundary { IsCharBoundary text.now result }
{
    let found = text.as_bytes().iter().position(|byte| !is_blank(*byte));
    found.unwrap_or(text.len())
}
