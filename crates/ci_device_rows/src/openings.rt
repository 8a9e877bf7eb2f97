//! What images open to.

use crate::images::{Image, bytes_of};
use crate::table::{Table, unmet};
use crate::volumes::refusal;
use ci_base::{OutOfMemory, Text8};
use ci_device::SureMemoryDisk;
use ci_volume::Volume;
use std::alloc::{AllocError, Global};
use std::test::Fail;

// The generation and the pages of the root.
fn told_of(alloc: Global, generation: u64, pages: &[u32]) -> Result<String, AllocError> {
    let mut text = format!(in alloc; "{generation}:")?;
    for page in pages {
        text.push_str(format!(in alloc; " {page}")?.as_str())?;
    }
    Ok(text)
}

fn opened_disk(alloc: Global, disk: SureMemoryDisk) -> Result<String, AllocError> {
    match Volume::open(alloc, disk) {
        Ok(volume) => told_of(alloc, volume.generation(), volume.root_pages()),
        Err(no) => String::from_str(alloc, refusal(no.fault)),
    }
}

// What bytes open to, or why they don't.
fn opened(alloc: Global, bytes: Text8) -> Result<String, OutOfMemory> {
    let room = bytes.items().len().saturating_add(4096);
    let disk = SureMemoryDisk::new(alloc, bytes, room)?;
    Ok(opened_disk(alloc, disk)?)
}

fn pair(text: &str) -> Option<(u64, u64)> {
    let (one, other) = text.split_once(' ')?;
    Some((one.parse::<u64>().ok()?, other.parse::<u64>().ok()?))
}

// An open gate is `open`, and a shut one a byte.
fn gate(text: &str) -> u8 {
    match text {
        "open" => 0x5A,
        _ => text.parse::<u8>().unwrap_or(0),
    }
}

fn gates(text: &str) -> Option<[u8; 2]> {
    let (one, other) = text.split_once(' ')?;
    Some([gate(one), gate(other)])
}

// A slot's generation, pages, root and length.
fn slot(text: &str) -> Option<[u64; 4]> {
    let (generation, rest) = text.split_once(' ')?;
    let (pages, rest) = rest.split_once(' ')?;
    let (root, length) = pair(rest)?;
    let generation = generation.parse::<u64>().ok()?;
    Some([generation, pages.parse::<u64>().ok()?, root, length])
}

fn image(given: &str) -> Option<Image> {
    let (bytes, rest) = given.split_once(" | ")?;
    let (one, rest) = rest.split_once(" | ")?;
    let (other, rest) = rest.split_once(" | ")?;
    let (link, size) = rest.split_once(" | ")?;
    Some(Image {
        gates: gates(bytes)?,
        slots: [slot(one)?, slot(other)?],
        link: pair(link),
        size: size.parse::<usize>().ok()?,
    })
}

// Rows of the gates, the slots, a page of a chain with the one that follows it or a dash, and how
// many bytes the image has.
struct Openings;

impl Table for Openings {
    fn told(alloc: Global, given: &str) -> Result<String, Fail> {
        let image = image(given).ok_or("an image")?;
        Ok(opened(alloc, bytes_of(alloc, &image)?)?)
    }
}

// No gate is open, one is, and both are.
#[test]
fn gates_and_generations(rt: HostRuntime) -> Result<(), Fail> {
    const ROWS: &str = "\
0 1 | 1 64 3 25 | 2 64 4 25 | - | 32768 => none
open 0 | 1 64 3 25 | 2 64 4 25 | - | 32768 => 1: 3
0 open | 1 64 3 25 | 2 64 4 25 | - | 32768 => 2: 4
open open | 1 64 3 25 | 2 64 4 25 | - | 32768 => 2: 4
open open | 2 64 4 25 | 1 64 3 25 | - | 32768 => 2: 4
open open | 1 64 3 25 | 1 64 3 25 | - | 32768 => none
open 0 | 4611686018427387903 64 3 25 | 0 0 0 0 | - | 32768 => 4611686018427387903: 3
open 0 | 4611686018427387904 64 3 25 | 1 64 3 25 | - | 32768 => none
open open | 4611686018427387903 64 3 25 | 4611686018427387904 64 4 25 | - | 32768 => none";
    assert_eq!(rt; unmet::<Openings>(rt.alloc(), ROWS)?.as_str(), "");
    Ok(())
}

// Too few, too many and the most pages; an empty root, and one in no data page.
#[test]
fn fields_of_a_slot(rt: HostRuntime) -> Result<(), Fail> {
    const ROWS: &str = "\
open 0 | 1 63 3 25 | 0 0 0 0 | - | 32768 => none
open 0 | 1 262145 3 25 | 0 0 0 0 | - | 32768 => none
open 0 | 1 262144 3 25 | 0 0 0 0 | - | 32768 => 1: 3
open 0 | 1 64 3 0 | 0 0 0 0 | - | 32768 => none
open 0 | 1 64 2 25 | 0 0 0 0 | - | 32768 => none";
    assert_eq!(rt; unmet::<Openings>(rt.alloc(), ROWS)?.as_str(), "");
    Ok(())
}

// Two pages, a page short, a page too many, back on itself, out of the image, out of the volume, and
// a byte short.
#[test]
fn chains_of_a_root(rt: HostRuntime) -> Result<(), Fail> {
    const ROWS: &str = "\
open 0 | 1 64 3 4093 | 0 0 0 0 | 3 6 | 32768 => 1: 3 6
open 0 | 1 64 3 4093 | 0 0 0 0 | - | 32768 => none
open 0 | 1 64 3 25 | 0 0 0 0 | 3 6 | 32768 => none
open 0 | 1 64 3 9000 | 0 0 0 0 | 3 3 | 32768 => none
open 0 | 1 64 3 4093 | 0 0 0 0 | 3 8 | 32768 => none
open 0 | 1 64 64 25 | 0 0 0 0 | - | 266240 => none
open 0 | 1 64 3 25 | 0 0 0 0 | - | 16383 => none";
    assert_eq!(rt; unmet::<Openings>(rt.alloc(), ROWS)?.as_str(), "");
    Ok(())
}

// Bytes that go round without a rule.
fn garbage(alloc: Global, size: usize) -> Result<Text8, AllocError> {
    let mut bytes = Vec::new(alloc);
    let mut byte = 67u8;
    for _ in 0..size {
        bytes.push(byte)?;
        byte = byte.wrapping_mul(5).wrapping_add(73);
    }
    Ok(Text8::from(bytes))
}

// The front of an image with two open slots.
fn front(alloc: Global, size: usize) -> Result<Text8, AllocError> {
    let image = Image {
        gates: [0x5A, 0x5A],
        slots: [[1, 64, 3, 25], [2, 64, 4, 25]],
        link: None,
        size,
    };
    bytes_of(alloc, &image)
}

// Rows of what the bytes are, and how many.
struct OddImages;

fn odd_image(alloc: Global, kind: &str, size: usize) -> Result<Text8, AllocError> {
    match kind {
        "garbage" => garbage(alloc, size),
        "letters" => Ok(Text8::from(Vec::from_elem(alloc, b'A', size)?)),
        _ => front(alloc, size),
    }
}

impl Table for OddImages {
    fn told(alloc: Global, given: &str) -> Result<String, Fail> {
        let (kind, size) = given.split_once(' ').ok_or("a kind")?;
        let size = size.parse::<usize>().ok().ok_or("a number")?;
        Ok(opened(alloc, odd_image(alloc, kind, size)?)?)
    }
}

#[test]
fn images_of_garbage(rt: HostRuntime) -> Result<(), Fail> {
    const ROWS: &str = "\
garbage 9 => none
garbage 4096 => none
garbage 8212 => none
garbage 12288 => none
garbage 16384 => none
garbage 40000 => none";
    assert_eq!(rt; unmet::<OddImages>(rt.alloc(), ROWS)?.as_str(), "");
    Ok(())
}

#[test]
fn images_of_few_bytes(rt: HostRuntime) -> Result<(), Fail> {
    const ROWS: &str = "\
letters 0 => none
letters 1 => none
letters 2 => none
letters 3 => none
letters 4 => none
letters 5 => none
letters 6 => none
letters 7 => none
letters 8 => none
letters 9 => none
front 0 => none
front 1 => none
front 2 => none
front 3 => none
front 4 => none
front 5 => none
front 6 => none
front 7 => none
front 8 => none
front 9 => none";
    assert_eq!(rt; unmet::<OddImages>(rt.alloc(), ROWS)?.as_str(), "");
    Ok(())
}
