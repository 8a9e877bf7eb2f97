//! Lists of noise words.

use crate::table::{Table, all_hold};
use ci_base::Text;
use ci_words::{NoiseFault, NoiseList};
use std::alloc::Global;
use std::test::Fail;

// Those of the words that the copy of a list holds, each with a bar behind it.
fn held(alloc: Global, noise: &NoiseList, words: &str) -> Result<String, Fail> {
    let noise = noise.copy(alloc)?;
    let mut told = String::new(alloc);
    for word in words.split(' ') {
        tell_held(alloc, &mut told, &noise, word)?;
    }
    Ok(told)
}

fn tell_held(alloc: Global, told: &mut String, noise: &NoiseList, word: &str) -> Result<(), Fail> {
    if noise.holds(&Text::of(alloc, word)?) {
        told.push_str(word)?;
        told.push('|')?;
    }
    Ok(())
}

#[test]
fn the_standard_list_has_24_words(rt: HostRuntime) -> Result<(), Fail> {
    let words =
        "fox a an and are as at be but by for from if The in is it wit of on or that the this to was with";
    let wanted =
        "a|an|and|are|as|at|be|but|by|for|from|if|in|is|it|of|on|or|that|the|this|to|was|with|";
    let noise = NoiseList::standard(rt.alloc())?;
    assert_eq!(rt; held(rt.alloc(), &noise, words)?.as_str(), wanted);
    Ok(())
}

// Rows of lists, a bar for a line feed: which of some words the list holds, or its first bad line.
struct ListRead;

impl Table for ListRead {
    fn told(alloc: Global, given: &str) -> Result<String, Fail> {
        let mut bytes = Vec::from_slice(alloc, given.as_bytes())?;
        for byte in bytes.iter_mut() {
            match *byte {
                b'|' => *byte = b'\n',
                b'?' => *byte = 0xff,
                _ => {}
            }
        }
        read(alloc, bytes.as_slice())
    }
}

fn read(alloc: Global, bytes: &[u8]) -> Result<String, Fail> {
    match NoiseList::read(alloc, bytes) {
        Ok(noise) => held(alloc, &noise, "the The of zwei fox"),
        Err(NoiseFault::BadNoise { line }) => Ok(format!(in alloc; "bad {line}")?),
        Err(NoiseFault::OutOfMemory) => Err("no memory".into()),
    }
}

#[test]
fn a_list_has_a_word_on_each_line(rt: HostRuntime) -> Result<(), Fail> {
    // a question mark stands for a byte that no text has
    const ROWS: &str = "\
The\r|\r|of|Zwei => the|of|zwei|
\x20=> \na|b c| => bad 2
a|?| => bad 2
a||,| => bad 3
\r => bad 1
a b|?| => bad 1";
    all_hold::<ListRead>(rt.alloc(), ROWS)
}
