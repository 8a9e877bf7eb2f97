//! Frames by name. A word is the name of one, `init:` and a path, `a*` and how often this byte
//! stands, or hexadecimal digits.

use std::alloc::Global;
use std::test::Fail;

/// The bytes of some words, one after the other.
pub(crate) fn bytes_of(alloc: Global, words: &str) -> Result<Vec<u8>, Fail> {
    let mut bytes = Vec::new(alloc);
    for word in words.split(' ') {
        add_word(alloc, &mut bytes, word)?;
    }
    Ok(bytes)
}

fn add_word(alloc: Global, bytes: &mut Vec<u8>, word: &str) -> Result<(), Fail> {
    if let Some(path) = word.strip_prefix("init:") {
        return add_init(bytes, path);
    }
    if let Some(count) = word.strip_prefix("a*") {
        return add_many(bytes, count);
    }
    match named(word) {
        Some(frame) => bytes.extend_from_slice(frame)?,
        None => add_digits(alloc, bytes, word)?,
    }
    Ok(())
}

// Init with the flags 80, for a short path.
fn add_init(bytes: &mut Vec<u8>, path: &str) -> Result<(), Fail> {
    if path.len() > 100 {
        return Err("a short path".into());
    }
    bytes.push(path.len() as u8 + 5)?;
    bytes.extend_from_slice(b"\x01\x00\x00\x00\x50")?;
    bytes.extend_from_slice(path.as_bytes())?;
    Ok(())
}

fn add_many(bytes: &mut Vec<u8>, count: &str) -> Result<(), Fail> {
    match count.parse::<u32>() {
        Ok(count) => {
            for _ in 0..count {
                bytes.push(b'a')?;
            }
            Ok(())
        }
        Err(_) => Err("a number".into()),
    }
}

fn add_digits(alloc: Global, bytes: &mut Vec<u8>, word: &str) -> Result<(), Fail> {
    match hex::decode(alloc, word) {
        Ok(more) => Ok(bytes.extend_from_slice(more.as_slice())?),
        Err(_) => Err("a name or digits".into()),
    }
}

fn named(word: &str) -> Option<&'static [u8]> {
    match call(word) {
        Some(frame) => Some(frame),
        None => match status(word) {
            Some(frame) => Some(frame),
            None => chunk(word),
        },
    }
}

// No bytes, and the calls. A text is asked for with at most 65,536 bytes.
fn call(word: &str) -> Option<&'static [u8]> {
    match word {
        "nothing" => Some(b""),
        "get_chunk" => Some(b"\x01\x02"),
        "get_text" => Some(b"\x05\x03\x00\x01\x00\x00"),
        "get_value" => Some(b"\x01\x04"),
        _ => None,
    }
}

// The answers that are a status.
fn status(word: &str) -> Option<&'static [u8]> {
    match word {
        "ok" => Some(b"\x05\x10\x00\x00\x00\x00"),
        "end_of_chunks" => Some(b"\x05\x10\x80\x04\x17\x00"),
        "no_more_text" => Some(b"\x05\x10\x80\x04\x17\x01"),
        "no_more_values" => Some(b"\x05\x10\x80\x04\x17\x02"),
        "access" => Some(b"\x05\x10\x80\x04\x17\x03"),
        "no_text" => Some(b"\x05\x10\x80\x04\x17\x05"),
        "no_values" => Some(b"\x05\x10\x80\x04\x17\x06"),
        "unknown" => Some(b"\x05\x10\x80\x04\x17\x0c"),
        _ => None,
    }
}

// The answers that tell a chunk: the first two of each file, and the third of a plain one.
fn chunk(word: &str) -> Option<&'static [u8]> {
    match word {
        "filename" => Some(
            b"\x19\x11\x00\x00\x00\x01\x03\x02\x00\x00\x00\x00\x00\x02\x00\x00\x00\x01\x00\x00\x00\x00\x00\x00\x00\x00",
        ),
        "size" => Some(
            b"\x19\x11\x00\x00\x00\x02\x03\x02\x00\x00\x00\x00\x00\x03\x00\x00\x00\x02\x00\x00\x00\x00\x00\x00\x00\x00",
        ),
        "contents" => Some(
            b"\x19\x11\x00\x00\x00\x03\x03\x01\x00\x00\x00\x00\x00\x01\x00\x00\x00\x03\x00\x00\x00\x00\x00\x00\x00\x00",
        ),
        _ => None,
    }
}
