//! Talks with daemons that say just this.

use crate::frames::frames;
use crate::table::{Table, unmet};
use ci_base::{PathText, Seq};
use ci_change::{Batch, Docs};
use ci_chunk::{Call, Outcome, Piece};
use ci_link::{Daemon, Link, MemoryLink, SureMemoryLink, Talk};
use ci_wire::encode_call;
use std::alloc::Global;
use std::test::Fail;

fn path(alloc: Global, text: &str) -> Result<PathText, Fail> {
    Ok(PathText::read(alloc, text.as_bytes()).ok().ok_or("a path")?)
}

fn batch(alloc: Global, paths: &str) -> Result<Batch, Fail> {
    let mut docs = Docs::new(alloc);
    for text in paths.split(' ') {
        docs.add((path(alloc, text)?, Seq(1)))?;
    }
    Ok(Batch { number: 1, docs })
}

// The answers of one document: the text `red`, an embedding that can't be had, and an empty text.
const RED: &str = "o1rn2e.";

// A daemon's talk on documents, and its link behind it. No contract of it is seen by a test.
pub(crate) fn talked<L: Link + Drop>(
    alloc: Global,
    link: L,
    paths: &str,
) -> Result<(Talk, L), Fail> {
    let batch = batch(alloc, paths)?;
    if batch.docs.items().is_empty() || batch.docs.items().len() > 16 {
        return Err("from one to sixteen documents".into());
    }
    let mut daemon = daemon(alloc, link)?;
    let talk = daemon.talk(alloc, &batch)?;
    Ok((talk, daemon.into_link()))
}

fn daemon<L: Link + Drop>(alloc: Global, link: L) -> Result<Daemon<L>, Fail> {
    match Daemon::new(alloc, link) {
        Ok(daemon) => Ok(daemon),
        Err(_) => Err("memory for a daemon".into()),
    }
}

fn is_red(outcome: &Outcome) -> bool {
    match outcome {
        Outcome::Done(pieces) => match pieces.items() {
            [
                Piece::Words { chunk: a, text: x },
                Piece::Words { chunk: b, text: y },
            ] => a.id == 1 && x.as_str() == "red" && b.id == 2 && y.as_str() == "",
            _ => false,
        },
        Outcome::Failed(_) | Outcome::Refused(_) => false,
    }
}

/// What a talk came to: how many documents were red, or where it died.
pub(crate) fn shown(alloc: Global, talk: &Talk) -> Result<String, Fail> {
    match talk {
        Talk::Finished(outcomes) => {
            let red = outcomes.items().iter().filter(|outcome| is_red(outcome));
            Ok(format!(in alloc; "red {}", red.count())?)
        }
        Talk::Died { charged } => Ok(format!(in alloc; "died at {charged}")?),
    }
}

// What a talk over this link came to.
fn came<L: Link + Drop>(alloc: Global, link: L, paths: &str) -> Result<String, Fail> {
    let (talk, _link) = talked(alloc, link, paths)?;
    shown(alloc, &talk)
}

// Rows of a daemon's frames, a letter each, and of the paths that are asked for.
struct Talks;

impl Table for Talks {
    fn told(alloc: Global, given: &str) -> Result<String, Fail> {
        let (letters, paths) = given.split_once("; ").ok_or("paths")?;
        let link = SureMemoryLink::new(alloc, frames(alloc, letters)?, 4096)?;
        came(alloc, link, paths)
    }
}

#[test]
fn talks_come_to_their_outcomes(rt: HostRuntime) -> Result<(), Fail> {
    // one document and two; a repeated chunk; a daemon that ends; a format that isn't known, alone
    // and before a document
    const ROWS: &str = "\
o1rn2e.; /d/a.txt => red 1
o1rn2e.o1rn2e.; /d/a.txt /d/b.txt => red 2
o1r1; /d/a.txt => died at 0
o1rn2e.; /d/a.txt /d/b.txt => died at 1
?; /d/a.txt => red 0
?o1rn2e.; /d/a.txt /d/b.txt => red 1";
    assert_eq!(rt; unmet::<Talks>(rt.alloc(), ROWS)?.as_str(), "");
    Ok(())
}

// What came of so many documents, which are red.
fn many_red(alloc: Global, count: usize) -> Result<String, Fail> {
    let paths = many_paths(alloc, count)?;
    let answers = frames(alloc, RED.repeat(alloc, count)?.as_str())?;
    came(
        alloc,
        SureMemoryLink::new(alloc, answers, 4096)?,
        paths.as_str(),
    )
}

fn many_paths(alloc: Global, count: usize) -> Result<String, Fail> {
    let mut paths = String::new(alloc);
    for number in 0..count {
        let space = if number == 0 { "" } else { " " };
        write!(paths, "{space}/d/{number}.txt")?;
    }
    Ok(paths)
}

#[test]
fn sixteen_documents_are_read(rt: HostRuntime) -> Result<(), Fail> {
    assert_eq!(rt; many_red(rt.alloc(), 16)?.as_str(), "red 16");
    Ok(())
}

// The call of a letter.
fn call(alloc: Global, letter: char) -> Result<Call, Fail> {
    Ok(match letter {
        'I' => Call::Init {
            flags: 80,
            path: path(alloc, "/d/a.txt")?,
        },
        'T' => Call::GetText { max: 65_536 },
        'V' => Call::GetValue,
        _ => Call::GetChunk,
    })
}

fn calls(alloc: Global, letters: &str) -> Result<Vec<u8>, Fail> {
    let mut bytes = Vec::new(alloc);
    for letter in letters.chars() {
        add_call(alloc, &mut bytes, letter)?;
    }
    Ok(bytes)
}

fn add_call(alloc: Global, bytes: &mut Vec<u8>, letter: char) -> Result<(), Fail> {
    let spelled = encode_call(alloc, &call(alloc, letter)?)?;
    Ok(bytes.extend_from_slice(spelled.items())?)
}

// The bytes that are sent to a daemon with these frames.
fn sent(alloc: Global, letters: &str, paths: &str) -> Result<Vec<u8>, Fail> {
    let link = SureMemoryLink::new(alloc, frames(alloc, letters)?, 2048)?;
    let (_talk, link) = talked(alloc, link, paths)?;
    Ok(Vec::from_slice(alloc, link.sent())?)
}

#[test]
fn a_document_is_asked_for_call_by_call(rt: HostRuntime) -> Result<(), Fail> {
    let wanted = calls(rt.alloc(), "IGTGGTG")?;
    let sent = sent(rt.alloc(), RED, "/d/a.txt")?;
    assert_eq!(rt; sent.as_slice(), wanted.as_slice());
    Ok(())
}

#[test]
fn nothing_is_asked_behind_an_outcome(rt: HostRuntime) -> Result<(), Fail> {
    // refused at Init, failed at GetChunk, GetText and GetValue, and read
    let wanted = calls(rt.alloc(), "IIGIGTIGVIG")?;
    let paths = "/d/a.txt /d/a.txt /d/a.txt /d/a.txt /d/a.txt";
    let sent = sent(rt.alloc(), "?oao1aovao.", paths)?;
    assert_eq!(rt; sent.as_slice(), wanted.as_slice());
    Ok(())
}

// What a talk and its copy came to.
fn copied(alloc: Global, paths: &str) -> Result<String, Fail> {
    let link = SureMemoryLink::new(alloc, frames(alloc, RED)?, 2048)?;
    let (talk, _link) = talked(alloc, link, paths)?;
    shown_twice(alloc, &talk)
}

fn shown_twice(alloc: Global, talk: &Talk) -> Result<String, Fail> {
    let one = shown(alloc, talk)?;
    let other = shown(alloc, &talk.copy(alloc)?)?;
    Ok(format!(in alloc; "{} {}", one.as_str(), other.as_str())?)
}

#[test]
fn a_copied_talk_came_to_the_same(rt: HostRuntime) -> Result<(), Fail> {
    assert_eq!(rt; copied(rt.alloc(), "/d/a.txt")?.as_str(), "red 1 red 1");
    let told = copied(rt.alloc(), "/d/a.txt /d/b.txt")?;
    assert_eq!(rt; told.as_str(), "died at 1 died at 1");
    Ok(())
}

fn failing_link(alloc: Global, fails: &[u64], room: usize) -> Result<MemoryLink, Fail> {
    let fails = Vec::from_slice(alloc, fails)?;
    Ok(MemoryLink::new(alloc, frames(alloc, RED)?, fails, room)?)
}

// What a talk came to whose call with this number fails.
fn failed(alloc: Global, failing: u64) -> Result<String, Fail> {
    came(alloc, failing_link(alloc, &[failing], 2048)?, "/d/a.txt")
}

#[test]
fn a_failed_call_ends_the_talk(rt: HostRuntime) -> Result<(), Fail> {
    for failing in 0..6u64 {
        let told = failed(rt.alloc(), failing)?;
        let ended = told.as_str() == "died at 0";
        assert!(rt;
            ended || (failing > 1 && told.as_str() == "red 1"),
            "call {failing}"
        );
    }
    Ok(())
}

// What a talk came to over a link with little room, and how much the copy of that link has sent.
fn in_little_room(alloc: Global) -> Result<String, Fail> {
    let link = failing_link(alloc, &[], 20)?;
    let copy = link.copy(alloc)?;
    let told = came(alloc, link, "/d/a.txt")?;
    Ok(format!(in alloc; "{} {}", told.as_str(), copy.sent().len())?)
}

#[test]
fn a_link_without_room_ends_the_talk(rt: HostRuntime) -> Result<(), Fail> {
    assert_eq!(rt; in_little_room(rt.alloc())?.as_str(), "died at 0 0");
    Ok(())
}
