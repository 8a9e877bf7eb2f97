ghost use Rattle.std.specs.Prelude.{◌≡◌, ◌≢◌, ◌≤◌, IfOk, IfErr, IsTrue, length, take};
ghost use Rattle.ci_dialect.specs.Words as spec;
ghost use Rattle.ci_dialect.specs.Step as step;
ghost use Rattle.ci_query.specs.Words.{HasRead, IsTooLong};

use crate::QueryFault;
use ci_base::{OutOfMemory, Text};
use ci_pieces::{Piece, PieceKind};
use ci_words::Words;
use std::alloc::Global;

/// The most words that a query has.
pub const QUERY_WORDS: usize = 1024;

/// How many items come first.
pub fn len_of_items(pieces: &[Piece<'_>]) -> usize
    ensures first { result ≡ length (step.items_of pieces.now) }
    ensures items { take result pieces.now ≡ step.items_of pieces.now }
    ensures within { result ≤ length pieces.now }
{
    let found = pieces.iter().position(|piece| !is_item(piece.kind()));
    found.unwrap_or(pieces.len())
}

/// The words of items, where so many words were read before.
pub fn words_of(alloc: Global, items: &[Piece<'_>], read: usize) -> Result<Vec<Text>, QueryFault>
    requires { read ≤ 1024 }
    ensures ok { IfOk result (λ words. HasRead read items.now words.items) }
    ensures err { IfErr result (λ fault. fault ≢ QueryFault.OutOfMemory →
        IsTooLong (step.too_long read items.now) fault) }
{
    let mut words = Vec::new(alloc);
    for item in items {
        let mut more = item_words(alloc, item)?;
        if read + words.len() + more.len() > QUERY_WORDS {
            let at = item.at() as u64;
            return Err(QueryFault::TooLong { at });
        }
        words.append(&mut more).map_err(OutOfMemory::from)?;
    }
    Ok(words)
}

/// Whether the item is a run that ends with a star.
pub fn is_prefix_run(item: &Piece<'_>) -> bool
    ensures { result ≡ spec.is_prefix_run item.now }
{
    matches!(item.kind(), PieceKind::Run) && is_starred(item.text())
}

pub fn is_starred(text: &str) -> bool
    ensures { result ≡ spec.is_starred text.now }
{
    text.len() > 0 && text.as_bytes()[text.len() - 1] == b'*'
}

/// The text before the star at its end.
pub fn without_star(text: &str) -> &str
    requires { IsTrue (spec.is_starred text.now) }
    ensures { result.now ≡ spec.without_star text.now }
{
    &text[..text.len() - 1]
}

fn is_item(kind: PieceKind) -> bool
    ensures { result ≡ spec.is_item kind }
{
    matches!(kind, PieceKind::Run | PieceKind::Quoted)
}

fn item_words(alloc: Global, item: &Piece<'_>) -> Result<Vec<Text>, OutOfMemory>
    ensures { IfOk result (λ words. words.items ≡ spec.item_words item.now) }
{
    if is_prefix_run(item) {
        Words::of(alloc, without_star(item.text()))
    } else {
        Words::of(alloc, item.text())
    }
}
