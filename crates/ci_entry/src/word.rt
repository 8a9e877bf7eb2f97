ghost use Rattle.std.specs.Prelude.{◌≡◌, ◌+◌, ◌^◌, ◌<◌, ◌≤◌, ◌++◌, [], ◌∷◌, All, IfOk, OnOk, length};
ghost use Rattle.std.specs.List.{enumerate_from, filter_map, sum_by};
ghost use Rattle.ci_keys.specs.Entry.{IsWords};
ghost use Rattle.ci_keys.specs.Key.{IsIndexKey, MayHaveWords};
ghost use Rattle.ci_words.specs.Words.{IsWord, words};
ghost use Rattle.ci_chunk.specs.Sizes.{IsBounded};
ghost use Rattle.ci_entry.specs.Words.{gap, kept_word, placed_words, stands, words_of};

use crate::group::group;
use crate::run::{Run, runs_of};
use ci_base::{OutOfMemory, Place, PropNo, Text};
use ci_chunk::{Break, Piece};
use ci_keys::{Key, Places};
use ci_words::{NoiseList, Words};
use std::alloc::Global;

// Contents, Filename, and the texts that describe a document.
const WORDED: [u16; 7] = [1, 2, 5, 6, 7, 8, 9];

/// The words of a transcript in order, each with its places.
pub fn words_of(
    alloc: Global,
    pieces: &[Piece],
    noise: &NoiseList,
) -> Result<Vec<(Key, Places)>, OutOfMemory>
    requires { IsBounded pieces.now }
    ensures list { IfOk result (λ list. list.items ≡ words_of noise.now pieces.now) }
    ensures words { IfOk result (λ list. IsWords list.items) }
{
    let mut found = stands_of(alloc, pieces, noise)?;
    found.sort()?;
    found.dedup();
    group(alloc, found)
}

fn stands_of(
    alloc: Global,
    pieces: &[Piece],
    noise: &NoiseList,
) -> Result<Vec<(Key, Place)>, OutOfMemory>
    requires { IsBounded pieces.now }
    ensures stands { IfOk result (λ found. found.items ≡ stands noise.now pieces.now) }
    ensures keys { IfOk result (λ found. All (λ stand. IsIndexKey stand.0) found.items) }
{
    let mut found = Vec::new(alloc);
    for number in WORDED {
        let property = PropNo(number);
        let runs = runs_of(alloc, property, pieces)?;
        add_runs(alloc, property, runs.as_slice(), noise, &mut found)?;
    }
    Ok(found)
}

// The first run begins at place 0, a later one behind the words of the run before it and the gap of
// its break.
fn add_runs(
    alloc: Global,
    property: PropNo,
    runs: &[Run],
    noise: &NoiseList,
    found: &mut Vec<(Key, Place)>,
) -> Result<(), OutOfMemory>
    requires property { MayHaveWords property.0 }
    requires few { length runs.now ≤ 65536 }
    requires short { sum_by (λ run. length run.text) runs.now ≤ 1048576 }
    requires keys { All (λ stand. IsIndexKey stand.0) found.old.items }
    ensures ok { OnOk result (found.new.items ≡
        found.old.items ++ filter_map (kept_word noise.now property.0) (placed_words runs.now)) }
    ensures keys { OnOk result (All (λ stand. IsIndexKey stand.0) found.new.items) }
{
    let mut end = 0;
    for (index, run) in runs.iter().enumerate() {
        if index > 0 {
            end += gap(run.before());
        }
        end += add_run(alloc, property, run.text(), end, noise, found)?;
    }
    Ok(())
}

fn gap(before: Break) -> u32
    ensures { result ≡ gap before }
{
    match before {
        Break::NoBreak | Break::Eow => 0,
        Break::Eos => 8,
        Break::Eop => 128,
        Break::Eoc => 1024,
    }
}

// Adds the words of a run that aren't noise, and tells how many words it has.
fn add_run(
    alloc: Global,
    property: PropNo,
    text: &str,
    begin: u32,
    noise: &NoiseList,
    found: &mut Vec<(Key, Place)>,
) -> Result<u32, OutOfMemory>
    requires property { MayHaveWords property.0 }
    requires room { begin + length text.now < 2 ^ 32 }
    requires keys { All (λ stand. IsIndexKey stand.0) found.old.items }
    ensures count { IfOk result (λ count. count ≡ length (words text.now)) }
    ensures few { IfOk result (λ count. count ≤ length text.now) }
    ensures ok { OnOk result (found.new.items ≡
        found.old.items ++
        filter_map (kept_word noise.now property.0) (enumerate_from begin (words text.now))) }
    ensures keys { OnOk result (All (λ stand. IsIndexKey stand.0) found.new.items) }
{
    let mut place = begin;
    for word in Words::of(alloc, text)? {
        add_word(property, word, place, noise, found)?;
        place += 1;
    }
    Ok(place - begin)
}

// Adds a word at its place, unless it is noise.
fn add_word(
    property: PropNo,
    word: Text,
    place: u32,
    noise: &NoiseList,
    found: &mut Vec<(Key, Place)>,
) -> Result<(), OutOfMemory>
    requires property { MayHaveWords property.0 }
    requires word { IsWord word }
    requires keys { All (λ stand. IsIndexKey stand.0) found.old.items }
    ensures ok { OnOk result (found.new.items ≡
        found.old.items ++ filter_map (kept_word noise.now property.0) ((place, word) ∷ [])) }
    ensures keys { OnOk result (All (λ stand. IsIndexKey stand.0) found.new.items) }
{
    if noise.holds(&word) {
        return Ok(());
    }
    found.push((Key { property, word }, Place(place)))?;
    Ok(())
}
