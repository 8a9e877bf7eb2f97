//! The words of texts. The expected words were worked out by hand, by the Unicode rules for word boundaries
//! and for case folding.

use crate::table::{Table, all_hold};
use ci_base::Text;
use ci_words::Words;
use std::alloc::Global;
use std::test::Fail;

// The words of a text, each with a bar behind it.
fn words_of(alloc: Global, text: &str) -> Result<String, Fail> {
    let words = Words::of(alloc, text)?;
    let mut told = String::new(alloc);
    tell_words(&mut told, &words)?;
    Ok(told)
}

fn tell_words(told: &mut String, words: &[Text]) -> Result<(), Fail> {
    for word in words {
        told.push_str(word.as_str())?;
        told.push('|')?;
    }
    Ok(())
}

// Rows of texts.
struct Barred;

impl Table for Barred {
    fn told(alloc: Global, given: &str) -> Result<String, Fail> {
        words_of(alloc, given)
    }
}

#[test]
fn texts_have_these_words(rt: HostRuntime) -> Result<(), Fail> {
    const ROWS: &str = "\
\x20=> \n\x20,.! => \nRed fox => red|fox|
can't stop => can't|stop|
STRASSE straße => strasse|strasse|
Éclair ÀÉ => éclair|àé|
Привет, МИР => привет|мир|
3.14 x_y => 3.14|x_y|";
    all_hold::<Barred>(rt.alloc(), ROWS)
}

// How many bytes the words have of a text that begins with a letter of one byte and goes on with so
// many of two, each with a bar behind it.
fn cut(alloc: Global, letters: usize) -> Result<usize, Fail> {
    let mut text = String::from_str(alloc, "a")?;
    for _ in 0..letters {
        text.push('é')?;
    }
    Ok(words_of(alloc, text.as_str())?.len())
}

#[test]
fn a_long_word_is_cut_at_a_character(rt: HostRuntime) -> Result<(), Fail> {
    assert_eq!(rt; cut(rt.alloc(), 70)?, 128);
    Ok(())
}
