//! Views of parts: what a newer part covers, what stands there, and the keys of a range.

ghost use Rattle.std.specs.Prelude.{◌≡◌, ◌<◌, All, IfOk};
ghost use Rattle.ci_index_rows.specs.Named.{AreNamed};
ghost use Rattle.ci_part.specs.Part.{lists_of};

use crate::parts::{list_with, parts_of};
use crate::table::{Table, unmet};
use ci_base::{PropNo, Text};
use ci_keys::{Key, Postings};
use ci_part::{Part, View};
use ci_segment::Steps;
use std::alloc::Global;
use std::marker::Brand;
use std::sync::ledger::{Blank, Ledger};
use std::test::Fail;

fn found_in<L: Ledger>(
    alloc: Global,
    view: &View<'_>,
    key: &Key,
    blank: Blank,
) -> Result<Postings, Fail>
    requires name { blank.name ≡ L.name }
    requires parts { blank.parts ≡ L.parts }
    requires some { 0 < blank.parts }
{
    let mut steps = Steps::<L>::new(blank);
    Ok(view.postings(alloc, key, &mut steps)?)
}

// The documents of the postings of a word, each with how many places it has.
fn postings_told(alloc: Global, parts: &[Part], word: &str) -> Result<String, Fail>
    requires { All (λ part. AreNamed (lists_of part)) parts.now }
{
    let key = Key {
        property: PropNo(1),
        word: Text::of(alloc, word)?,
    };
    let view = View::new(parts);
    let found = found_in::<Brand>(alloc, &view, &key, Blank::new(1))?;
    let mut told = String::new(alloc);
    write!(told, "{}", found.items().len())?;
    for (doc, places) in found.items() {
        write!(told, " {}:{}", doc.0, places.items().len())?;
    }
    Ok(told)
}

fn rows_told(alloc: Global, parts: &[Part]) -> Result<String, Fail>
    requires { All (λ part. AreNamed (lists_of part)) parts.now }
{
    let rows = View::new(parts).rows(alloc)?;
    let mut told = String::new(alloc);
    write!(told, "{}", rows.as_slice().len())?;
    for row in rows.as_slice() {
        write!(told, " {}", row.path.as_str())?;
    }
    Ok(told)
}

fn range_told(alloc: Global, parts: &[Part], prefix: &str) -> Result<String, Fail>
    requires { All (λ part. AreNamed (lists_of part)) parts.now }
{
    let prefix = Text::of(alloc, prefix)?;
    let keys = View::new(parts).range(alloc, PropNo(1), &prefix)?;
    let mut told = String::new(alloc);
    write!(told, "{}", keys.as_slice().len())?;
    for key in keys.as_slice() {
        write!(told, " {}", key.word.as_str())?;
    }
    Ok(told)
}

// A word and parts, newest first, and the word's postings.
struct Found;

impl Table for Found {
    fn told(alloc: Global, given: &str) -> Result<String, Fail> {
        let (word, parts) = given.split_once(": ").ok_or("a word")?;
        let parts = parts_of(alloc, parts)?;
        postings_told(alloc, parts.as_slice(), word)
    }
}

#[test]
fn newer_parts_cover_documents(rt: HostRuntime) -> Result<(), Fail> {
    const ROWS: &str = "\
red: list a red => 1 97:1
red: list a blue => 0
red: list a blue, list a red => 0
red: list a red, list a blue => 1 97:1
red: list a red, list a red => 1 97:1
red: list a, list a red => 0
red: list a red, list a => 1 97:1
red: shadow a blue, list a red => 0
red: list a blue, shadow a red => 0
red: shadow a, master a red => 0
red: shadow a red, master a => 1 97:1
red: list b red, list a red => 2 97:1 98:1
red: list c red, list b blue, shadow a red, shadow b red, master d red => 3 97:1 99:1 100:1
red: list c, list b blue, shadow a red, shadow c red, master b red, master c red => 1 97:1";
    assert_eq!(rt; unmet::<Found>(rt.alloc(), ROWS)?.as_str(), "");
    Ok(())
}

// Parts, newest first, and the paths of the documents that are there.
struct There;

impl Table for There {
    fn told(alloc: Global, given: &str) -> Result<String, Fail> {
        let parts = parts_of(alloc, given)?;
        rows_told(alloc, parts.as_slice())
    }
}

#[test]
fn rows_of_documents_that_are_there(rt: HostRuntime) -> Result<(), Fail> {
    const ROWS: &str = "\
list a => 0
list a red => 1 /a
list a, list a red => 0
list a red, list a => 1 /a
list b red, shadow a blue, master c red => 3 /a /b /c
list c, list b red, shadow a blue, master c red => 2 /a /b
shadow b, list a red, shadow b red, master a => 1 /a";
    assert_eq!(rt; unmet::<There>(rt.alloc(), ROWS)?.as_str(), "");
    Ok(())
}

// A prefix and parts, and the keys of the range.
struct Range;

impl Table for Range {
    fn told(alloc: Global, given: &str) -> Result<String, Fail> {
        let (prefix, parts) = given.split_once(": ").ok_or("a prefix")?;
        let parts = parts_of(alloc, parts)?;
        range_told(alloc, parts.as_slice(), prefix)
    }
}

#[test]
fn keys_that_begin_with_a_prefix(rt: HostRuntime) -> Result<(), Fail> {
    const ROWS: &str = "\
re: list a red => 1 red
re: list a => 0
re: list a r => 0
re: list a rf => 0
red: list a red => 1 red
redd: list a red => 0
re: list b rex, shadow a red, master c red => 2 red rex
re: list a red, list b re, list c rd, shadow d rf, shadow e reed => 3 re red reed
re: list a blue, list a red => 1 red";
    assert_eq!(rt; unmet::<Range>(rt.alloc(), ROWS)?.as_str(), "");
    Ok(())
}

// A list for each of so many letters, over and over, the newest first.
fn copies_of(alloc: Global, count: usize, letters: &[u8], word: &str) -> Result<Vec<Part>, Fail>
    ensures { IfOk result (λ parts. All (λ part. AreNamed (lists_of part)) parts.items) }
{
    let mut parts = Vec::new(alloc);
    for at in 0..count {
        let letter = letters
            .get(at % letters.len().max(1))
            .copied()
            .ok_or("a letter")?;
        parts.push(Part::List(list_with(alloc, letter, word)?))?;
    }
    Ok(parts)
}

#[test]
fn sixty_five_parts(rt: HostRuntime) -> Result<(), Fail> {
    let alloc = rt.alloc();
    let parts = copies_of(alloc, 65, b"cab", "red")?;
    let found = postings_told(alloc, parts.as_slice(), "red")?;
    assert_eq!(rt; found.as_str(), "3 97:1 98:1 99:1");
    assert_eq!(rt; rows_told(alloc, parts.as_slice())?.as_str(), "3 /a /b /c");
    assert_eq!(rt; range_told(alloc, parts.as_slice(), "r")?.as_str(), "1 red");
    Ok(())
}
