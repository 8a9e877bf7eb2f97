ghost use Rattle.std.specs.Prelude.{◌≡◌, ◌++◌, ◌∷◌, [], ◌<◌, IfOk, MatchOption, length};
ghost use Rattle.std.specs.Bool.{OnFalse, OnTrue};
ghost use Rattle.std.specs.Str.Lines.{lines, strip_carriage_return};
ghost use Rattle.ci_words.specs.Noise.{IsNoiseLine};
ghost use Rattle.ci_words.specs.Words.{words};

use crate::Words;
use ci_base::{OutOfMemory, Text};
use std::alloc::Global;

/// The first line of the bytes and what stands behind it. A carriage return before a line feed is
/// dropped.
pub fn next_line(bytes: &[u8]) -> Option<(&[u8], &[u8])>
    ensures line { MatchOption result (lines bytes.now ≡ [])
        (λ found. lines bytes.now ≡ found.0.now ∷ lines found.1.now) }
    ensures shorter { MatchOption result (length bytes.now ≡ 0)
        (λ found. length found.1.now < length bytes.now) }
{
    match bytes.iter().position(|byte| *byte == b'\n') {
        Some(at) => Some((without_return(&bytes[..at]), &bytes[at + 1..])),
        None if bytes.is_empty() => None,
        None => Some((bytes, &[])),
    }
}

fn without_return(line: &[u8]) -> &[u8]
    ensures { result.now ≡ strip_carriage_return line.now }
{
    match line {
        [front @ .., b'\r'] => front,
        _ => line,
    }
}

/// Appends the word that a line names, unless the line is empty. False where the line isn't one
/// word.
pub fn add_word(alloc: Global, line: &[u8], list: &mut Vec<Text>) -> Result<bool, OutOfMemory>
    ensures good { IfOk result (λ good. OnTrue good (IsNoiseLine line.now)) }
    ensures added { IfOk result (λ good.
        OnTrue good (list.new.items ≡ list.old.items ++ words line.now)) }
    ensures bad { IfOk result (λ good. OnFalse good (¬ IsNoiseLine line.now)) }
{
    if line.is_empty() {
        return Ok(true);
    }
    let Ok(text) = str::from_utf8(line) else {
        return Ok(false);
    };
    let mut words = Words::of(alloc, text)?;
    if words.len() != 1 {
        return Ok(false);
    }
    list.append(&mut words)?;
    Ok(true)
}
