//! Frames between the server and a daemon, byte by byte.

use ci_base::{PathText, PropNo, Text, Text8, Value};
use ci_chunk::{Break, ChunkState, StatChunk, Status};
use ci_wire::{Answer, Call, Frame, FrameFault, Frames, encode_answer, encode_call};
use std::alloc::Global;
use std::test::Fail;

// What the frames of some bytes are, fed in two pieces: `?` where there is less than one, `!` where
// none begins, and `=` where it and its copy are this one.
fn read(alloc: Global, bytes: &[u8], cut: usize, frame: &Frame) -> Result<String, Fail> {
    let (front, rest) = bytes.split_at(cut.min(bytes.len()));
    let mut told = String::new(alloc);
    tell_frames(alloc, &mut told, front, rest, frame)?;
    Ok(told)
}

fn tell_frames(
    alloc: Global,
    told: &mut String,
    front: &[u8],
    rest: &[u8],
    frame: &Frame,
) -> Result<(), Fail> {
    let mut frames = Frames::new(alloc)?;
    tell_front(told, &mut frames, front, frame)?;
    tell_rest(alloc, told, &mut frames, rest, frame)
}

fn tell_front(
    told: &mut String,
    frames: &mut Frames,
    bytes: &[u8],
    frame: &Frame,
) -> Result<(), Fail> {
    frames.feed(bytes)?;
    tell_next(told, frames, frame)
}

fn tell_rest(
    alloc: Global,
    told: &mut String,
    frames: &mut Frames,
    bytes: &[u8],
    frame: &Frame,
) -> Result<(), Fail> {
    frames.feed(bytes)?;
    tell_two(told, &mut frames.copy(alloc)?, frame)
}

fn tell_two(told: &mut String, frames: &mut Frames, frame: &Frame) -> Result<(), Fail> {
    tell_next(told, frames, frame)?;
    tell_next(told, frames, frame)
}

fn tell_next(told: &mut String, frames: &mut Frames, frame: &Frame) -> Result<(), Fail> {
    Ok(told.push(sign(frames.next(), frame))?)
}

fn sign(found: Result<Option<Frame>, FrameFault>, wanted: &Frame) -> char {
    match found {
        Ok(None) => '?',
        Ok(Some(frame)) if frame == *wanted => '=',
        Ok(Some(_)) => '+',
        Err(_) => '!',
    }
}

// Whether the frame comes just at the end of its bytes, however they are cut.
fn comes_whole(alloc: Global, spelling: &[u8], frame: &Frame) -> Result<bool, Fail> {
    for cut in 0..spelling.len() {
        if read(alloc, spelling, cut, frame)?.as_str() != "?=?" {
            return Ok(false);
        }
    }
    Ok(true)
}

fn is_call(alloc: Global, call: Call, spelling: &[u8]) -> Result<bool, Fail> {
    let same = is_spelled(alloc, &call, spelling)? && is_call_copied(alloc, &call)?;
    Ok(same && comes_whole(alloc, spelling, &Frame::Call(call))?)
}

fn is_spelled(alloc: Global, call: &Call, spelling: &[u8]) -> Result<bool, Fail> {
    Ok(encode_call(alloc, call)?.items() == spelling)
}

fn is_call_copied(alloc: Global, call: &Call) -> Result<bool, Fail> {
    Ok(call.copy(alloc)? == *call)
}

// Whether an answer has these bytes, which are also its frame's.
fn is_answer(alloc: Global, answer: Answer, bytes: &Text8, spelling: &[u8]) -> Result<bool, Fail> {
    let same = bytes.items() == spelling && answer.copy(alloc)? == answer;
    Ok(same && comes_whole(alloc, spelling, &Frame::Answer(answer))?)
}

fn is_status(alloc: Global, status: Status, spelling: &[u8]) -> Result<bool, Fail> {
    let answer = Answer::Status(status);
    let bytes = encode_answer(alloc, &answer)?;
    is_answer(alloc, answer, &bytes, spelling)
}

fn is_chunk(alloc: Global, chunk: StatChunk, spelling: &[u8]) -> Result<bool, Fail> {
    let answer = Answer::Chunk(chunk);
    let bytes = encode_answer(alloc, &answer)?;
    is_answer(alloc, answer, &bytes, spelling)
}

// The last text of a chunk, which is short enough to be spelled.
fn is_text(alloc: Global, text: &str, spelling: &[u8]) -> Result<bool, Fail> {
    if text.len() > 65_536 {
        return Err("a short text".into());
    }
    let text = Text::of(alloc, text)?;
    let status = Status::FILTER_S_LAST_TEXT;
    let answer = Answer::Text { status, text };
    let bytes = encode_answer(alloc, &answer)?;
    is_answer(alloc, answer, &bytes, spelling)
}

fn is_number(alloc: Global, number: i64, spelling: &[u8]) -> Result<bool, Fail> {
    let value = Value::Int(number);
    let status = Status::S_OK;
    let answer = Answer::Value { status, value };
    let bytes = encode_answer(alloc, &answer)?;
    is_answer(alloc, answer, &bytes, spelling)
}

fn init(alloc: Global) -> Result<Call, Fail> {
    Ok(Call::Init {
        flags: 80,
        path: PathText::read(alloc, b"/d/a.txt")?,
    })
}

#[test]
fn calls_are_spelled_and_read_in_any_cutting(rt: HostRuntime) -> Result<(), Fail> {
    let alloc = rt.alloc();
    assert!(rt; is_call(alloc, init(alloc)?, b"\x0d\x01\0\0\0\x50/d/a.txt")?);
    assert!(rt; is_call(alloc, Call::GetChunk, b"\x01\x02")?);
    assert!(rt; is_call(alloc, Call::GetText { max: 65_536 }, b"\x05\x03\0\x01\0\0")?);
    assert!(rt; is_call(alloc, Call::GetValue, b"\x01\x04")?);
    Ok(())
}

fn chunk() -> StatChunk {
    StatChunk {
        id: 1,
        break_type: Break::Eop,
        state: ChunkState::Value,
        locale: 0,
        property: PropNo(3),
        source: 1,
        start: 0,
        length: 0,
    }
}

#[test]
fn answers_are_spelled_and_read_in_any_cutting(rt: HostRuntime) -> Result<(), Fail> {
    let alloc = rt.alloc();
    assert!(rt; is_status(alloc, Status::S_OK, b"\x05\x10\0\0\0\0")?);
    let ended = Status::FILTER_E_END_OF_CHUNKS;
    assert!(rt; is_status(alloc, ended, b"\x05\x10\x80\x04\x17\0")?);
    let spelling = b"\x19\x11\0\0\0\x01\x03\x02\0\0\0\0\0\x03\0\0\0\x01\0\0\0\0\0\0\0\0";
    assert!(rt; is_chunk(alloc, chunk(), spelling)?);
    assert!(rt; is_text(alloc, "red", b"\x08\x12\0\x04\x17\x09red")?);
    let spelling = b"\x0e\x13\0\0\0\0\x01\xff\xff\xff\xff\xff\xff\xff\xfe";
    assert!(rt; is_number(alloc, -2, spelling)?);
    Ok(())
}

fn is_frame_copied(alloc: Global, frame: &Frame) -> Result<bool, Fail> {
    Ok(frame.copy(alloc)? == *frame)
}

// What some bytes are read as, and a frame behind them.
fn refused(alloc: Global, bytes: &[u8]) -> Result<String, Fail> {
    let mut all = Vec::from_slice(alloc, bytes)?;
    all.extend_from_slice(b"\x01\x02")?;
    read(
        alloc,
        all.as_slice(),
        bytes.len(),
        &Frame::Call(Call::GetChunk),
    )
}

#[test]
fn other_bytes_are_no_frame(rt: HostRuntime) -> Result<(), Fail> {
    let rows: [(&[u8], &str); 8] = [
        // a second spelling of the length, no bytes, too many, and no such kind
        (b"\x8d\0\x01\0\0\0\x50/d/a.txt", "!!!"),
        (b"\0", "!!!"),
        (b"\x81\x80\x08", "!!!"),
        (b"\x01\x05", "!!!"),
        // a break of 5, and a path that is none
        (
            b"\x19\x11\0\0\0\x01\x05\x02\0\0\0\0\0\x03\0\0\0\x01\0\0\0\0\0\0\0\0",
            "!!!",
        ),
        (b"\x08\x01\0\0\0\x50/d/", "!!!"),
        // a frame before another one
        (b"\x01\x04", "+=?"),
        (b"\x01\x04\x01\x04", "++="),
    ];
    for (bytes, wanted) in rows {
        assert_eq!(rt; refused(rt.alloc(), bytes)?.as_str(), wanted);
    }
    assert!(rt; is_frame_copied(rt.alloc(), &Frame::Call(Call::GetChunk))?);
    Ok(())
}
