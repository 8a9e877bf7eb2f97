//! Statuses and plain transcripts.

use ci_base::{PathText, Value};
use ci_chunk::{Piece, StatChunk, Status, Transcript};
use std::alloc::Global;
use std::test::Fail;

#[test]
fn statuses_have_their_numbers(rt: HostRuntime) -> Result<(), Fail> {
    let rows = [
        (Status::FILTER_E_END_OF_CHUNKS, 0x8004_1700),
        (Status::FILTER_E_NO_MORE_TEXT, 0x8004_1701),
        (Status::FILTER_E_NO_MORE_VALUES, 0x8004_1702),
        (Status::FILTER_E_ACCESS, 0x8004_1703),
        (Status::FILTER_E_NO_TEXT, 0x8004_1705),
        (Status::FILTER_E_NO_VALUES, 0x8004_1706),
        (Status::FILTER_E_EMBEDDING_UNAVAILABLE, 0x8004_1707),
        (Status::FILTER_E_LINK_UNAVAILABLE, 0x8004_1708),
        (Status::FILTER_E_PASSWORD, 0x8004_170b),
        (Status::FILTER_E_UNKNOWNFORMAT, 0x8004_170c),
    ];
    for (status, number) in rows {
        assert_eq!(rt; status, Status(number));
        assert!(rt; status.is_failing());
    }
    let good = [
        (Status::S_OK, 0),
        (Status::FILTER_S_LAST_TEXT, 0x0004_1709),
        (Status::FILTER_S_LAST_VALUES, 0x0004_170a),
    ];
    for (status, number) in good {
        assert_eq!(rt; status, Status(number));
        assert!(rt; !status.is_failing());
    }
    Ok(())
}

// The pieces of the copy of a plain transcript: each chunk's numbers, and what it holds.
fn plain(alloc: Global, path: &str, text: &str) -> Result<String, Fail> {
    let path = PathText::read(alloc, path.as_bytes()).ok().ok_or("a path")?;
    let copy = Transcript::plain(alloc, &path, text)?.copy(alloc)?;
    let mut told = String::new(alloc);
    tell_all(&mut told, &copy)?;
    Ok(told)
}

fn tell_all(told: &mut String, transcript: &Transcript) -> Result<(), Fail> {
    for piece in transcript.items() {
        tell(told, piece)?;
    }
    Ok(())
}

fn tell(told: &mut String, piece: &Piece) -> Result<(), Fail> {
    match piece {
        Piece::Words { chunk, text } => {
            tell_chunk(told, chunk)?;
            write!(told, "{}|", text.as_str())?;
        }
        Piece::Held { chunk, value } => {
            tell_chunk(told, chunk)?;
            match value {
                Some(Value::Int(number)) => write!(told, "{number}|")?,
                Some(Value::Str(text)) => write!(told, "'{}'|", text.as_str())?,
                None => told.push('|')?,
            }
        }
    }
    Ok(())
}

fn tell_chunk(told: &mut String, chunk: &StatChunk) -> Result<(), Fail> {
    write!(told, "{} {} ", chunk.id, chunk.source)?;
    write!(told, "{:?} {:?} ", chunk.break_type, chunk.state)?;
    tell_place(told, chunk)
}

fn tell_place(told: &mut String, chunk: &StatChunk) -> Result<(), Fail> {
    let (locale, start, length) = (chunk.locale, chunk.start, chunk.length);
    write!(told, "{} ", chunk.property.0)?;
    Ok(write!(told, "({locale}, {start}, {length}) ")?)
}

#[test]
fn a_plain_text_has_three_pieces(rt: HostRuntime) -> Result<(), Fail> {
    let wanted =
        "1 1 Eop Value 2 (0, 0, 0) 'a.txt'|2 2 Eop Value 3 (0, 0, 0) 3|3 3 Eop Text 1 (0, 0, 0) hé|";
    assert_eq!(rt; plain(rt.alloc(), "/d/a.txt", "hé")?.as_str(), wanted);
    Ok(())
}
