//! Lines of a source, in any cutting; those that are as long as a text may be, and longer ones.

use crate::table::{Table, all_hold};
use ci_base::Text8;
use ci_io::{
    Line, LineReader, MemorySink, MemorySource, Source, SureMemorySink, SureMemorySource, put_all,
};
use std::alloc::Global;
use std::test::Fail;

// What five calls read of a source that fails at these calls, and how often it was called. Of a
// text that isn't short its length is told.
fn read(alloc: Global, bytes: Vec<u8>, fails: &[u64]) -> Result<(String, u64), Fail> {
    let mut reader = reader(alloc, source(alloc, bytes, fails)?)?;
    let told = read_five(alloc, &mut reader)?;
    Ok((told, reader.into_source().calls()))
}

fn source(alloc: Global, bytes: Vec<u8>, fails: &[u64]) -> Result<MemorySource, Fail> {
    let fails = Vec::from_slice(alloc, fails)?;
    Ok(MemorySource::new(alloc, Text8::from(bytes), fails))
}

fn reader(alloc: Global, source: MemorySource) -> Result<LineReader<MemorySource>, Fail> {
    match LineReader::new(alloc, source) {
        Ok(reader) => Ok(reader),
        Err(_) => Err("no memory".into()),
    }
}

fn read_five(alloc: Global, reader: &mut LineReader<MemorySource>) -> Result<String, Fail> {
    let mut told = String::new(alloc);
    for _ in 0..5 {
        read_one(alloc, &mut told, reader)?;
    }
    Ok(told)
}

fn read_one(
    alloc: Global,
    told: &mut String,
    reader: &mut LineReader<MemorySource>,
) -> Result<(), Fail> {
    match reader.read_line(alloc) {
        Ok(line) => tell(alloc, told, &line),
        Err(_) => Ok(told.push_str("failed ")?),
    }
}

// Tells a line, whose copy equals it.
fn tell(alloc: Global, told: &mut String, line: &Line) -> Result<(), Fail> {
    if !is_copied(alloc, line)? {
        return Err("a copy equals its line".into());
    }
    match line {
        Line::Text(text) => tell_text(told, text.items()),
        Line::Long => Ok(told.push_str("long ")?),
        Line::End => Ok(told.push_str("end ")?),
    }
}

fn is_copied(alloc: Global, line: &Line) -> Result<bool, Fail> {
    Ok(line.copy(alloc)? == *line)
}

fn tell_text(told: &mut String, bytes: &[u8]) -> Result<(), Fail> {
    if bytes.len() < 10 {
        let text = std::str::from_utf8(bytes).ok().ok_or("a text")?;
        write!(told, "'{text}' ")?;
    } else {
        write!(told, "{} ", bytes.len())?;
    }
    Ok(())
}

// Rows of two calls that fail, of how many letters a source begins with, and of what follows them, a
// bar for a line feed.
struct Lines;

impl Table for Lines {
    fn told(alloc: Global, given: &str) -> Result<String, Fail> {
        let (fails, rest) = given.split_once(": ").ok_or("the calls that fail")?;
        let (count, then) = rest.split_once(' ').ok_or("a count")?;
        let count = count.parse::<usize>().ok().ok_or("a number")?;
        let (first, second) = fails.split_once(' ').ok_or("two calls")?;
        let first = first.parse::<u64>().ok().ok_or("a number")?;
        let second = second.parse::<u64>().ok().ok_or("a number")?;
        let (told, _) = read(alloc, letters(alloc, count, then)?, &[first, second])?;
        Ok(told)
    }
}

// So many letters, and then others.
fn letters(alloc: Global, count: usize, then: &str) -> Result<Vec<u8>, Fail> {
    let mut bytes = Vec::from_elem(alloc, b'x', count)?;
    for byte in then.bytes() {
        bytes.push(if byte == b'|' { b'\n' } else { byte })?;
    }
    Ok(bytes)
}

#[test]
fn lines_end_at_feeds_and_at_the_end(rt: HostRuntime) -> Result<(), Fail> {
    // a failed read loses nothing
    const ROWS: &str = "\
9 9: 0  => end end end end end\x20
9 9: 0 | => '' end end end end\x20
9 9: 1 | => 'x' end end end end\x20
9 9: 0 a|\rb\r => 'a' '\rb' end end end\x20
9 9: 0 one\r||two\r\r|last => 'one' '' 'two\r' 'last' end\x20
0 2: 0 a|b => failed 'a' failed 'b' end\x20
1 9: 0 a|b => 'a' failed 'b' end end\x20";
    all_hold::<Lines>(rt.alloc(), ROWS)
}

#[test]
fn a_line_is_long_above_its_limit(rt: HostRuntime) -> Result<(), Fail> {
    // the next line stands behind a long one
    const ROWS: &str = "\
9 9: 65536  => 65536 end end end end\x20
9 9: 65536 | => 65536 end end end end\x20
9 9: 65535 \r => 65535 end end end end\x20
9 9: 65535 \r| => 65535 end end end end\x20
9 9: 65536 \r => long end end end end\x20
9 9: 65536 \r| => long end end end end\x20
9 9: 65537  => long end end end end\x20
9 9: 65537 | => long end end end end\x20
9 9: 196608 | => long end end end end\x20
9 9: 65537 |red\r||fox => long 'red' '' 'fox' end\x20
9 9: 131073 |red\r||fox => long 'red' '' 'fox' end\x20
9 9: 200000 |red\r||fox => long 'red' '' 'fox' end\x20";
    all_hold::<Lines>(rt.alloc(), ROWS)
}

#[test]
fn a_source_is_asked_no_more_than_needed(rt: HostRuntime) -> Result<(), Fail> {
    // the end is told once, though asked for again; a read that fails within a long line is told
    let (_, calls) = read(rt.alloc(), Vec::from_slice(rt.alloc(), b"a\nb")?, &[2])?;
    assert_eq!(rt; calls, 2);
    let (told, _) = read(rt.alloc(), letters(rt.alloc(), 200_000, "|red")?, &[2])?;
    assert!(rt; told.as_str().starts_with("failed "));
    Ok(())
}

// Which of the pieces a sink takes that takes two bytes a call, has room for eight, and fails at
// its third call; and then what its copy has.
fn sunk(alloc: Global, pieces: &[&str]) -> Result<String, Fail> {
    let mut sink = MemorySink::new(alloc, 2, Vec::from_slice(alloc, &[2u64])?, 8)?;
    let mut told = String::new(alloc);
    put_pieces(&mut told, &mut sink, pieces)?;
    tell_bytes(&mut told, sink.copy(alloc)?.bytes())?;
    Ok(told)
}

fn put_pieces(told: &mut String, sink: &mut MemorySink, pieces: &[&str]) -> Result<(), Fail> {
    for piece in pieces {
        let taken = put_all(sink, piece.as_bytes()).is_ok();
        told.push(if taken { '+' } else { '-' })?;
    }
    Ok(())
}

fn tell_bytes(told: &mut String, bytes: &[u8]) -> Result<(), Fail> {
    Ok(told.push_str(std::str::from_utf8(bytes).ok().ok_or("a text")?)?)
}

#[test]
fn a_sink_takes_what_fits(rt: HostRuntime) -> Result<(), Fail> {
    let told = sunk(rt.alloc(), &["abcd", "ef", "efghij"])?;
    assert_eq!(rt; told.as_str(), "+--abcdefgh");
    Ok(())
}

// How many bytes the copy of a source gives that fails at these calls. None where it fails.
fn given(alloc: Global, fails: &[u64]) -> Result<Option<usize>, Fail> {
    let source = source(alloc, Vec::from_slice(alloc, b"fox")?, fails)?;
    let mut out = [0; 8];
    Ok(source.copy(alloc)?.take(&mut out).ok())
}

fn given_surely(alloc: Global) -> Result<Option<usize>, Fail> {
    let source = SureMemorySource::new(alloc, Text8::of(alloc, b"fox")?);
    let mut out = [0; 8];
    Ok(source.copy(alloc)?.take(&mut out).ok())
}

fn taken_surely(alloc: Global) -> Result<usize, Fail> {
    let mut sink = SureMemorySink::new(alloc, 4, 8)?;
    let taken = put_all(&mut sink, b"abcd").is_ok();
    let copy = sink.copy(alloc)?;
    Ok(if taken { copy.bytes().len() } else { 0 })
}

#[test]
fn copies_give_the_same_bytes(rt: HostRuntime) -> Result<(), Fail> {
    assert_eq!(rt; given(rt.alloc(), &[])?, Some(3));
    assert_eq!(rt; given(rt.alloc(), &[0])?, None);
    assert_eq!(rt; given_surely(rt.alloc())?, Some(3));
    assert_eq!(rt; taken_surely(rt.alloc())?, 4);
    Ok(())
}
