//! Segments, byte by byte.

ghost use Rattle.std.specs.Prelude.{◌≡◌, ◌<◌};

use crate::rows::bytes_of;
use crate::table::{Table, unmet};
use ci_base::{PropNo, Text, Text8};
use ci_keys::{Key, Postings};
use ci_segment::{Segment, SegmentFault, Steps};
use std::alloc::Global;
use std::marker::Brand;
use std::sync::ledger::{Blank, Ledger};
use std::test::Fail;

// What the bytes are: the keys of their segment with their postings, or no segment.
fn told_of(alloc: Global, bytes: &[u8]) -> Result<String, Fail> {
    match Segment::read(alloc, Text8::of(alloc, bytes)?) {
        Ok(segment) => told_segment(alloc, &segment, bytes),
        Err(SegmentFault::BadSegment) => Ok(String::from_str(alloc, "no segment")?),
        Err(SegmentFault::OutOfMemory) => Err("memory".into()),
    }
}

fn told_segment(alloc: Global, segment: &Segment, bytes: &[u8]) -> Result<String, Fail> {
    if segment.bytes() != bytes {
        return Ok(String::from_str(alloc, "other bytes")?);
    }
    let mut told = String::new(alloc);
    tell_keys(alloc, &mut told, segment)?;
    Ok(told)
}

fn tell_keys(alloc: Global, told: &mut String, segment: &Segment) -> Result<(), Fail> {
    write!(told, "{} keys", segment.len())?;
    for index in 0..segment.len() {
        tell_key(told, &segment.key_at(alloc, index)?)?;
        tell_postings(told, &segment.postings_at(alloc, index)?.copy(alloc)?)?;
    }
    Ok(())
}

fn tell_key(told: &mut String, key: &Key) -> Result<(), Fail> {
    Ok(write!(told, "; {} {}", key.property.0, key.word.as_str())?)
}

fn tell_postings(told: &mut String, postings: &Postings) -> Result<(), Fail> {
    for (doc, places) in postings.items() {
        write!(told, " {}:", doc.0)?;
        for place in places.items() {
            write!(told, " {}", place.0)?;
        }
    }
    Ok(())
}

// Bytes, and what they are.
struct Fate;

impl Table for Fate {
    fn told(alloc: Global, given: &str) -> Result<String, Fail> {
        let bytes = bytes_of(alloc, given)?;
        told_of(alloc, bytes.as_slice())
    }
}

#[test]
fn segments_are_read_and_spelled_again(rt: HostRuntime) -> Result<(), Fail> {
    const ROWS: &str = "\
43495331 01 00000000 01 00 03 726564 03 000101 => 1 keys; 1 red 0: 1
43495331 02 00000000 01 00 03 726564 03 000101 01 02 01 78 06 ac02 02 05 02 00 => no segment
43495331 02 00000000 01 00 03 726564 03 000101 01 02 01 78 05 ac02 02 05 02 => 2 keys; 1 red 0: 1; 1 rex 300: 5 7
43495331 02 00000000 01 00 01 61 06 00 01 01 07 01 00 05 00 01 61 03 00 01 01 => 2 keys; 1 a 0: 1 7: 0; 5 a 0: 1";
    assert_eq!(rt; unmet::<Fate>(rt.alloc(), ROWS)?.as_str(), "");
    Ok(())
}

#[test]
fn other_bytes_are_no_segments(rt: HostRuntime) -> Result<(), Fail> {
    const ROWS: &str = "\
43495330 01 01 03 726564 03 000101 => no segment
43495331 00 => no segment
43495331 01 00000001 01 00 03 726564 03 000101 => no segment
43495331 01 00000000 03 00 03 726564 03 000101 => no segment
43495331 01 00000000 01 00 00 03 000101 => no segment
43495331 01 00000000 01 00 01 ff 03 000101 => no segment
43495331 01 00000000 01 00 03 726564 00 => no segment
43495331 01 00000000 01 00 03 726564 03 000101 00 => no segment
43495331 02 00000000 01 00 03 726564 03 000101 01 01 02 6578 03 000101 => no segment
43495331 02 00000000 01 00 03 726564 03 000101 01 03 00 03 000101 => no segment
43495331 02 00000000 01 00 03 726564 03 000101 01 02 01 61 03 000101 => no segment
43495331 02 00000000 01 00 01 61 03 000101 05 01 00 03 000101 => no segment";
    assert_eq!(rt; unmet::<Fate>(rt.alloc(), ROWS)?.as_str(), "");
    Ok(())
}

// A varint, spelled apart from the code that is tested.
fn put_number(out: &mut Vec<u8>, number: usize) -> Result<(), Fail> {
    let mut left = number;
    for _ in 0..10 {
        if left < 128 {
            out.push(left as u8)?;
            return Ok(());
        }
        out.push((left % 128) as u8 + 128)?;
        left /= 128;
    }
    Ok(())
}

fn digit(number: usize) -> u8 {
    b'0' + (number % 10) as u8
}

// The word of a number below 1,000.
fn word_of(number: usize) -> [u8; 4] {
    [b'k', digit(number / 100), digit(number / 10), digit(number)]
}

// How many digits both words begin with.
fn shared(last: &[u8], word: &[u8]) -> usize {
    let mut shared = 0;
    for place in 0..word.len().min(last.len()) {
        if shared == place && last[place] == word[place] {
            shared = place + 1;
        }
    }
    shared
}

fn put_key(items: &mut Vec<u8>, shared: usize, word: &[u8]) -> Result<(), Fail> {
    let (_, others) = word.split_at_checked(shared).ok_or("a front")?;
    items.push(1)?;
    put_number(items, shared)?;
    put_number(items, others.len())?;
    items.extend_from_slice(others)?;
    items.extend_from_slice(&[3, 0, 1, 0])?;
    Ok(())
}

fn put_offset(table: &mut Vec<u8>, offset: usize) -> Result<(), Fail> {
    let offset = u32::try_from(offset).map_err(|_| "an offset")?;
    table.extend_from_slice(&offset.to_be_bytes())?;
    Ok(())
}

// A key that stands behind the one before it, or first in its block.
fn put_one(items: &mut Vec<u8>, table: &mut Vec<u8>, number: usize) -> Result<(), Fail> {
    let word = word_of(number);
    if number % 16 == 0 {
        put_offset(table, items.len())?;
        return put_key(items, 0, word.as_slice());
    }
    let front = shared(
        word_of(number.saturating_sub(1)).as_slice(),
        word.as_slice(),
    );
    put_key(items, front, word.as_slice())
}

fn put_all(items: &mut Vec<u8>, table: &mut Vec<u8>) -> Result<(), Fail> {
    for number in 0..1000usize {
        put_one(items, table, number)?;
    }
    Ok(())
}

fn joined(alloc: Global, table: &[u8], items: &[u8]) -> Result<Vec<u8>, Fail> {
    let mut out = Vec::from_slice(alloc, b"CIS1")?;
    put_number(&mut out, 1000)?;
    out.extend_from_slice(table)?;
    out.extend_from_slice(items)?;
    Ok(out)
}

// The keys k000 to k999, every one in document 0 at place 0.
fn thousand(alloc: Global) -> Result<Vec<u8>, Fail> {
    let mut items: Vec<u8> = Vec::new(alloc);
    let mut table: Vec<u8> = Vec::new(alloc);
    put_all(&mut items, &mut table)?;
    joined(alloc, table.as_slice(), items.as_slice())
}

fn thousand_keys(alloc: Global) -> Result<Segment, Fail> {
    let bytes = thousand(alloc)?;
    match Segment::read(alloc, Text8::from(bytes)) {
        Ok(segment) => Ok(segment),
        Err(_) => Err("a segment".into()),
    }
}

fn more(count: usize) -> usize {
    count.saturating_add(1)
}

// The key of a number, with something behind its word.
fn key_of(alloc: Global, number: usize, behind: &str) -> Result<Key, Fail> {
    let word = word_of(number);
    let word = str::from_utf8(word.as_slice()).ok().ok_or("a text")?;
    let mut text = String::from_str(alloc, word)?;
    text.push_str(behind)?;
    Ok(Key {
        property: PropNo(1),
        word: Text::from(text),
    })
}

// Whether the key of a number stands at its place.
fn is_found<L: Ledger>(
    alloc: Global,
    segment: &Segment,
    steps: &mut Steps<L>,
    number: usize,
) -> Result<bool, Fail> {
    let key = key_of(alloc, number, "")?;
    Ok(segment.find(&key, steps) == Some(number) && segment.from(&key) == number)
}

// Whether the key between it and the next one is found nowhere.
fn is_between<L: Ledger>(
    alloc: Global,
    segment: &Segment,
    steps: &mut Steps<L>,
    number: usize,
) -> Result<bool, Fail> {
    let key = key_of(alloc, number, "a")?;
    Ok(segment.find(&key, steps).is_none() && segment.from(&key) == more(number))
}

// How many keys are found, and how many keys between two neighbours are found nowhere.
fn count_found<L: Ledger>(
    alloc: Global,
    segment: &Segment,
    blank: Blank,
) -> Result<(usize, usize), Fail>
    requires name { blank.name ≡ L.name }
    requires parts { blank.parts ≡ L.parts }
    requires some { 0 < blank.parts }
{
    let mut steps = Steps::<L>::new(blank);
    let mut found = 0;
    let mut between = 0;
    for number in 0..1000usize {
        if is_found(alloc, segment, &mut steps, number)? {
            found = more(found);
        }
        if is_between(alloc, segment, &mut steps, number)? {
            between = more(between);
        }
    }
    Ok((found, between))
}

#[test]
fn a_thousand_keys(rt: HostRuntime) -> Result<(), Fail> {
    let segment = thousand_keys(rt.alloc())?;
    let found = count_found::<Brand>(rt.alloc(), &segment, Blank::new(1))?;
    assert_eq!(rt; found, (1000, 1000));
    Ok(())
}

fn whole_fronts(alloc: Global, bytes: &[u8]) -> Result<u32, Fail> {
    let mut whole = 0u32;
    for length in 0..bytes.len() {
        if told_of(alloc, &bytes[..length])?.as_str() != "no segment" {
            whole = whole.saturating_add(1);
        }
    }
    Ok(whole)
}

// A byte set to each value: how many of the segments are read, and how many of those are spelled
// otherwise than they were.
fn changed_at(alloc: Global, bytes: &mut [u8], place: usize) -> Result<(u32, u32), Fail> {
    let mut read = 0u32;
    let mut otherwise = 0u32;
    for other in 0..=255u8 {
        if place < bytes.len() {
            bytes[place] = other;
        }
        let told = told_of(alloc, bytes)?;
        if told.as_str() != "no segment" {
            read = read.saturating_add(1);
        }
        if told.as_str() == "other bytes" {
            otherwise = otherwise.saturating_add(1);
        }
    }
    Ok((read, otherwise))
}

fn changed(alloc: Global, text: &str) -> Result<(u32, u32), Fail> {
    let count = bytes_of(alloc, text)?.len();
    let (mut read, mut otherwise) = (0u32, 0u32);
    for place in 0..count {
        let mut bytes = bytes_of(alloc, text)?;
        let (one, other) = changed_at(alloc, bytes.as_mut_slice(), place)?;
        read = read.saturating_add(one);
        otherwise = otherwise.saturating_add(other);
    }
    Ok((read, otherwise))
}

const SMALL: &str = "43495331 02 00000000 01 00 03 726564 03 000101 01 02 01 78 05 ac02 02 05 02";

#[test]
fn cut_bytes_are_no_segments(rt: HostRuntime) -> Result<(), Fail> {
    let bytes = bytes_of(rt.alloc(), SMALL)?;
    assert_eq!(rt; whole_fronts(rt.alloc(), bytes.as_slice())?, 0);
    Ok(())
}

#[test]
fn changed_bytes_are_read_as_they_are_spelled(rt: HostRuntime) -> Result<(), Fail> {
    let (read, otherwise) = changed(rt.alloc(), SMALL)?;
    assert!(rt; read > 1_000);
    assert_eq!(rt; otherwise, 0);
    Ok(())
}
