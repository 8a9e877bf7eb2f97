ghost use Rattle.std.specs.Prelude.{◌≡◌, ◌<◌, IfOk, All, length};
ghost use Rattle.ci_words.specs.Words.{IsWord, word_of, words};

use crate::cut;
use caseless::default_case_fold_str;
use ci_base::{OutOfMemory, Text};
use std::alloc::Global;
use unicode_segmentation::UnicodeSegmentation;

/// The most bytes that a word has.
pub const WORD_BYTES: usize = 128;

/// How a text is broken into words.
pub struct Words;

impl Words {
    /// The words of a text, in order.
    pub fn of(alloc: Global, text: &str) -> Result<Vec<Text>, OutOfMemory>
        ensures words { IfOk result (λ list. list.items ≡ words text.now) }
        ensures each { IfOk result (λ list. All IsWord list.items) }
    {
        let mut list = Vec::new(alloc);
        for segment in text.unicode_words() {
            list.push(word_of_segment(alloc, segment)?)?;
        }
        Ok(list)
    }
}

fn word_of_segment(alloc: Global, segment: &str) -> Result<Text, OutOfMemory>
    ensures word { IfOk result (λ word. word ≡ word_of segment.now) }
    ensures each { IfOk result (λ word. 0 < length segment.now → IsWord word) }
{
    let folded = default_case_fold_str(alloc, segment)?;
    Text::of(alloc, cut(folded.as_str(), WORD_BYTES))
}
