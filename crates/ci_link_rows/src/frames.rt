//! Frames that a daemon answers with: a letter for each, and statuses by their numbers.

use ci_base::Text8;
use std::alloc::Global;
use std::test::Fail;

// Chunks: the identifier stands in the sixth byte, and what the chunk has, a text, a value or one
// that its filter keeps, in the eighth.
const TEXT_ONE: &[u8] = b"\x19\x11\0\0\0\x01\x03\x01\0\0\0\0\0\x01\0\0\0\x01\0\0\0\0\0\0\0\0";

const TEXT_TWO: &[u8] = b"\x19\x11\0\0\0\x02\x03\x01\0\0\0\0\0\x01\0\0\0\x02\0\0\0\0\0\0\0\0";

const VALUE_ONE: &[u8] = b"\x19\x11\0\0\0\x01\x03\x02\0\0\0\0\0\x01\0\0\0\x01\0\0\0\0\0\0\0\0";

const KEPT_ONE: &[u8] = b"\x19\x11\0\0\0\x01\x03\x04\0\0\0\0\0\x01\0\0\0\x01\0\0\0\0\0\0\0\0";

const BLUE: &[u8] = b"\x09\x12\0\0\0\0blue";

const LAST_RED: &[u8] = b"\x08\x12\0\x04\x17\x09red";

const EMPTY: &[u8] = b"\x05\x12\0\0\0\0";

const SEVEN: &[u8] = b"\x0e\x13\0\0\0\0\x01\0\0\0\0\0\0\0\x07";

const LAST_GREEN: &[u8] = b"\x0b\x13\0\x04\x17\x0a\x02green";

// The frame of a letter: a status, a chunk, a part of a text, a value, or a call.
fn frame(letter: char) -> Option<&'static [u8]> {
    match letter {
        'o' => Some(b"\x05\x10\0\0\0\0"),
        '.' => Some(b"\x05\x10\x80\x04\x17\0"),
        'a' => Some(b"\x05\x10\x80\x04\x17\x03"),
        'n' => Some(b"\x05\x10\x80\x04\x17\x07"),
        'p' => Some(b"\x05\x10\x80\x04\x17\x0b"),
        '?' => Some(b"\x05\x10\x80\x04\x17\x0c"),
        'c' => Some(b"\x01\x02"),
        _ => piece(letter),
    }
}

fn piece(letter: char) -> Option<&'static [u8]> {
    match letter {
        '1' => Some(TEXT_ONE),
        '2' => Some(TEXT_TWO),
        'v' => Some(VALUE_ONE),
        'k' => Some(KEPT_ONE),
        'b' => Some(BLUE),
        'r' => Some(LAST_RED),
        'e' => Some(EMPTY),
        '7' => Some(SEVEN),
        'g' => Some(LAST_GREEN),
        _ => None,
    }
}

fn add_frames(bytes: &mut Vec<u8>, letters: &str) -> Result<(), Fail> {
    for letter in letters.chars() {
        bytes.extend_from_slice(frame(letter).ok_or("a letter of a frame")?)?;
    }
    Ok(())
}

/// The frames of some letters, one after the other.
pub(crate) fn frames(alloc: Global, letters: &str) -> Result<Text8, Fail> {
    let mut bytes = Vec::new(alloc);
    add_frames(&mut bytes, letters)?;
    Ok(Text8::from(bytes))
}

// The frame of a status, whose number has eight hexadecimal digits.
fn add_status(bytes: &mut Vec<u8>, digits: &str) -> Result<(), Fail> {
    match u32::from_str_radix(digits, 16) {
        Ok(number) => {
            bytes.extend_from_slice(b"\x05\x10")?;
            Ok(bytes.extend_from_slice(&number.to_be_bytes())?)
        }
        Err(_) => Err("a status".into()),
    }
}

/// A status, between frames of letters.
pub(crate) fn frames_around(
    alloc: Global,
    before: &str,
    digits: &str,
    behind: &str,
) -> Result<Text8, Fail> {
    let mut bytes = Vec::new(alloc);
    add_frames(&mut bytes, before)?;
    add_status(&mut bytes, digits)?;
    add_frames(&mut bytes, behind)?;
    Ok(Text8::from(bytes))
}
