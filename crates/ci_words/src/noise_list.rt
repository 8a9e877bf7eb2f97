ghost use Rattle.std.specs.Prelude.{◌≡◌, ◌↔◌, ℕ, All, Contains, IfOk, IsTrue, OnOk, map};
ghost use Rattle.std.specs.Str.Lines.{lines};
ghost use Rattle.ci_words.specs.Noise.{IsFirstBad, IsNoiseLine, SameWords, named_words, standard_noise};

use crate::noise_line::{add_word, next_line};
use ci_base::{OutOfMemory, Text};
use std::alloc::Global;
use std::marker::Model;
use thiserror::Error;

/// Words that are too common to be kept. Contracts see the list of them, in the order of their
/// bytes.
#[derive(Debug, Drop)]
pub struct NoiseList {
    words: Vec<Text>,
}

impl Model for NoiseList {
    ghost use Rattle.std.specs.Prelude.{List, ℕ, IsSorted};
    ghost use Rattle.std.specs.Cmp.Lexicographic.{slice_cmp};
    ghost use Rattle.std.specs.Ordering.{nat_cmp};

    ghost Value = { List (List ℕ) };

    ghost view = { λ n. n.words.items };

    ghost invariant = { λ n. IsSorted (slice_cmp nat_cmp) n.words.items };
}

/// Why bytes were not read as a list of noise words.
#[derive(Clone, Copy, Debug, PartialEq, Eq, Error)]
pub enum NoiseFault {
    /// The line, counted from 1, isn't UTF-8 or hasn't exactly one word.
    #[error("line {line} is not one word")]
    BadNoise { line: u64 },
    #[error("out of memory")]
    OutOfMemory,
}

impl From<OutOfMemory> for NoiseFault {
    ghost use Rattle.ci_words.specs.declared.noise_list.NoiseFault.TheVariants as faults;

    ghost from_gives = { λ _ e. e ≡ faults.OutOfMemory };

    fn from(_refused: OutOfMemory) -> NoiseFault {
        NoiseFault::OutOfMemory
    }
}

impl NoiseList {
    /// Reads a list that has a word on each line. An empty line says nothing.
    pub fn read(alloc: Global, bytes: &[u8]) -> Result<NoiseList, NoiseFault>
        ensures ok { OnOk result (All IsNoiseLine (lines bytes.now)) }
        ensures words { IfOk result (λ noise. SameWords noise (named_words bytes.now)) }
        ensures bad { (line : ℕ) →
            result ≡ Err (NoiseFault.BadNoise line) → IsFirstBad line (lines bytes.now) }
    {
        let mut list = Vec::new(alloc);
        let mut line = 0;
        let mut rest = bytes;
        while let Some((first, later)) = next_line(rest) {
            line += 1;
            if !add_word(alloc, first, &mut list)? {
                return Err(NoiseFault::BadNoise { line });
            }
            rest = later;
        }
        Ok(NoiseList::of_words(list)?)
    }

    /// The list that is used where no other is given.
    #[tactic(auto, using(crate::proofs::StandardLemmas::standard_is_sorted))]
    pub fn standard(alloc: Global) -> Result<NoiseList, OutOfMemory>
        ensures { IfOk result (λ noise. noise ≡ standard_noise) }
    {
        let words = list_of(alloc, &STANDARD)?;
        Ok(NoiseList { words })
    }

    /// Whether the word is one of the list.
    pub fn holds(&self, word: &Text) -> bool
        ensures { IsTrue result ↔ Contains self.now word.now }
    {
        self.words.binary_search(word).is_ok()
    }

    /// Another list of the same words.
    pub fn copy(&self, alloc: Global) -> Result<NoiseList, OutOfMemory>
        ensures { IfOk result (λ n. n ≡ self.now) }
    {
        Ok(NoiseList {
            words: copy_words(alloc, &self.words)?,
        })
    }

    fn of_words(mut words: Vec<Text>) -> Result<NoiseList, OutOfMemory>
        ensures { IfOk result (λ noise. SameWords noise words.items) }
    {
        words.sort()?;
        Ok(NoiseList { words })
    }
}

const STANDARD: [&str; 24] = [
    "a", "an", "and", "are", "as", "at", "be", "but", "by", "for", "from", "if", "in", "is", "it",
    "of", "on", "or", "that", "the", "this", "to", "was", "with",
];

fn list_of(alloc: Global, words: &[&str]) -> Result<Vec<Text>, OutOfMemory>
    ensures { IfOk result (λ list. list.items ≡ map (λ word. word.now) words.now) }
{
    let mut list = Vec::new(alloc);
    for word in words {
        list.push(Text::of(alloc, word)?)?;
    }
    Ok(list)
}

fn copy_words(alloc: Global, words: &[Text]) -> Result<Vec<Text>, OutOfMemory>
    ensures { IfOk result (λ copied. copied.items ≡ words.now) }
{
    let mut copied = Vec::new(alloc);
    for word in words {
        copied.push(word.copy(alloc)?)?;
    }
    Ok(copied)
}
