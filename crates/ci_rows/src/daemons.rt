//! Daemons in memory, which read documents, refuse them or fail at them, and what is told of them.

ghost use Rattle.std.specs.Prelude.{IfOk};
ghost use Rattle.ci_link.specs.Memory.{IsUnused};

use ci_base::Text8;
use ci_link::{MemoryLink, MemorySpawner, Records};
use std::alloc::Global;
use std::test::Fail;

// The Init is taken; a chunk of words comes, and its text; then no chunk is left.
const OPENED: &[u8] = b"\x05\x10\x00\x00\x00\x00";

const CHUNK: &[u8] =
    b"\x19\x11\x00\x00\x00\x01\x03\x01\x00\x00\x00\x00\x00\x01\x00\x00\x00\x01\x00\x00\x00\x00\x00\x00\x00\x00";

const LAST_RED: &[u8] = b"\x08\x12\x00\x04\x17\x09red";

const NO_MORE_CHUNKS: &[u8] = b"\x05\x10\x80\x04\x17\x00";

// The bytes of these four frames.
const DOCUMENT_BYTES: usize = 47;

// The Init is refused: no filter takes the document, or its text is behind a password. Or it fails:
// its file can't be read.
const NO_FORMAT: &[u8] = b"\x05\x10\x80\x04\x17\x0c";

const LOCKED: &[u8] = b"\x05\x10\x80\x04\x17\x0b";

const UNREADABLE: &[u8] = b"\x05\x10\x80\x04\x17\x03";

// The bytes of each of these.
const STATUS_BYTES: usize = 6;

// What a link takes, at most: the calls of 2,000 documents have some 60,000 bytes.
const ROOM: usize = 131_072;

// What a daemon says of the documents that it gets, before it ends. Between points: how many it
// reads, or a letter for one that it doesn't.
fn answers(alloc: Global, documents: &str) -> Result<Text8, Fail> {
    let mut bytes = Vec::new(alloc);
    for part in documents.split('.') {
        add_part(&mut bytes, part)?;
    }
    Ok(Text8::from(bytes))
}

fn add_part(bytes: &mut Vec<u8>, part: &str) -> Result<(), Fail> {
    match part {
        "n" => Ok(bytes.extend_from_slice(NO_FORMAT)?),
        "l" => Ok(bytes.extend_from_slice(LOCKED)?),
        "u" => Ok(bytes.extend_from_slice(UNREADABLE)?),
        _ => add_documents(bytes, part.parse::<usize>().ok().ok_or("a number")?),
    }
}

fn add_documents(bytes: &mut Vec<u8>, count: usize) -> Result<(), Fail> {
    for _ in 0..count {
        add_document(bytes)?;
    }
    Ok(())
}

fn add_document(bytes: &mut Vec<u8>) -> Result<(), Fail> {
    for frame in [OPENED, CHUNK, LAST_RED, NO_MORE_CHUNKS] {
        bytes.extend_from_slice(frame)?;
    }
    Ok(())
}

fn link(alloc: Global, documents: &str) -> Result<MemoryLink, Fail>
    ensures { IfOk result IsUnused }
{
    let answers = answers(alloc, documents)?;
    Ok(MemoryLink::new(alloc, answers, Vec::new(alloc), ROOM)?)
}

/// No start gives a daemon.
pub(crate) fn no_daemon(alloc: Global) -> MemorySpawner {
    MemorySpawner::new(alloc, Vec::new(alloc), Vec::new(alloc))
}

// How many daemons there are at most.
const DAEMONS: u64 = 5;

// The starts from this one on fail.
const STARTS: u64 = 32;

/// A word for each daemon in turn, of at most five: what it says before it ends. Behind the last of
/// them no start gives one.
pub(crate) fn daemons(alloc: Global, given: &str) -> Result<MemorySpawner, Fail> {
    let mut words = given.split_whitespace();
    let links = vec![in alloc;
        link(alloc, words.next().unwrap_or("0"))?,
        link(alloc, words.next().unwrap_or("0"))?,
        link(alloc, words.next().unwrap_or("0"))?,
        link(alloc, words.next().unwrap_or("0"))?,
        link(alloc, words.next().unwrap_or("0"))?,
    ]?;
    let count = given.split_whitespace().count() as u64;
    Ok(MemorySpawner::new(alloc, links, failing(alloc, count)?))
}

// The numbers of the starts that fail, where so many daemons can be had.
fn failing(alloc: Global, count: u64) -> Result<Vec<u64>, Fail> {
    if count > DAEMONS {
        return Err("five daemons at most".into());
    }
    let mut fails = Vec::new(alloc);
    for call in count..STARTS {
        fails.push(call)?;
    }
    Ok(fails)
}

/// A number for each daemon that was given back: of how many documents all was heard. Behind a sign,
/// if there are some: how many it didn't read.
pub(crate) fn heard(alloc: Global, records: &Records) -> Result<String, Fail> {
    let mut told = String::new(alloc);
    for record in &records.to_vec(alloc)? {
        let bytes = record.given.items().len();
        write!(told, " {}", bytes / DOCUMENT_BYTES)?;
        add_unread(&mut told, bytes % DOCUMENT_BYTES / STATUS_BYTES)?;
    }
    Ok(told)
}

fn add_unread(told: &mut String, count: usize) -> Result<(), Fail> {
    if count > 0 {
        write!(told, "+{count}")?;
    }
    Ok(())
}
