//! How much a transcript takes.

use ci_base::{PathText, PropNo, Text};
use ci_chunk::{Break, ChunkState, Piece, StatChunk, Transcript, TranscriptFault};
use std::alloc::Global;
use std::test::Fail;

const CHUNK: StatChunk = StatChunk {
    id: 1,
    break_type: Break::Eop,
    state: ChunkState::Text,
    locale: 0,
    property: PropNo(1),
    source: 1,
    start: 0,
    length: 0,
};

// A text of so many bytes.
fn text(alloc: Global, len: usize) -> Result<Text, Fail> {
    Ok(Text::of(alloc, "x".repeat(alloc, len)?.as_str())?)
}

fn is_taken(taken: Result<(), TranscriptFault>) -> Result<bool, Fail> {
    match taken {
        Ok(()) => Ok(true),
        Err(TranscriptFault::TooLong) => Ok(false),
        Err(TranscriptFault::OutOfMemory) => Err("no memory".into()),
    }
}

fn add_text(transcript: &mut Transcript, text: Text) -> Result<bool, Fail> {
    is_taken(transcript.add(Piece::Words { chunk: CHUNK, text }))
}

// How many texts of `len` bytes a transcript takes, of `count` that are given.
fn texts_taken(alloc: Global, count: usize, len: usize) -> Result<usize, Fail> {
    let mut transcript = Transcript::new(alloc);
    for taken in 0..count {
        if !add_text(&mut transcript, text(alloc, len)?)? {
            return Ok(taken);
        }
    }
    Ok(count)
}

#[test]
fn a_transcript_has_bounds(rt: HostRuntime) -> Result<(), Fail> {
    let rows = [
        (65_537, 0, 65_536),
        (17, 65_536, 16),
        (2, 1_048_576, 1),
        (1, 1_048_577, 0),
    ];
    for (count, len, taken) in rows {
        assert_eq!(rt; texts_taken(rt.alloc(), count, len)?, taken);
    }
    Ok(())
}

// Whether a plain text of so many bytes has a transcript.
fn is_plain(alloc: Global, len: usize) -> Result<bool, Fail> {
    let path = PathText::read(alloc, b"/d/a.txt")?;
    let text = text(alloc, len)?;
    is_taken(Transcript::plain(alloc, &path, text.as_str()).map(|_| ()))
}

#[test]
fn a_plain_text_may_be_too_long(rt: HostRuntime) -> Result<(), Fail> {
    assert_eq!(rt; is_plain(rt.alloc(), 1_048_576)?, true);
    assert_eq!(rt; is_plain(rt.alloc(), 1_048_577)?, false);
    Ok(())
}
