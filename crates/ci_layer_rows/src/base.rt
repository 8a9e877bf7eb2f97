//! Paths, and copies of the plain data.

use crate::table::{Table, all_hold};
use ci_base::{PathText, Text, Text8, Value};
use std::alloc::Global;
use std::test::Fail;

// Rows of texts: the copy of the path that is read, and its last part.
struct PathRead;

impl Table for PathRead {
    fn told(alloc: Global, given: &str) -> Result<String, Fail> {
        let Ok(path) = PathText::read(alloc, given.as_bytes()) else {
            return Ok(String::from_str(alloc, "bad")?);
        };
        let copy = path.copy(alloc)?;
        Ok(format!(in alloc; "{} {}", copy.as_str(), copy.last_part())?)
    }
}

#[test]
fn paths_are_read(rt: HostRuntime) -> Result<(), Fail> {
    const ROWS: &str = "\
/a => /a a
/d/a.txt => /d/a.txt a.txt
/d/..a => /d/..a ..a
/é/ß => /é/ß ß
\x20=> bad
/ => bad
a/b => bad
/a//b => bad
/a/../b => bad
/a/./b => bad
/a/ => bad
/a\tb => bad
/a\x7f => bad";
    all_hold::<PathRead>(rt.alloc(), ROWS)?;
    assert!(rt; PathText::read(rt.alloc(), b"/\xff").is_err());
    Ok(())
}

// Whether a slash and so many letters are a path.
fn is_path(alloc: Global, letters: usize) -> Result<bool, Fail> {
    let mut path = Vec::from_elem(alloc, b'a', letters)?;
    path.insert(0, b'/')?;
    Ok(PathText::read(alloc, path.as_slice()).is_ok())
}

#[test]
fn a_path_has_at_most_1024_bytes(rt: HostRuntime) -> Result<(), Fail> {
    assert!(rt; is_path(rt.alloc(), 1023)?);
    assert!(rt; !is_path(rt.alloc(), 1024)?);
    Ok(())
}

fn is_text_copied(alloc: Global, text: &str) -> Result<bool, Fail> {
    let one = Text::of(alloc, text)?;
    Ok(one.copy(alloc)? == one)
}

fn is_value_copied(alloc: Global, value: Value) -> Result<bool, Fail> {
    Ok(value.copy(alloc)? == value)
}

// How many bytes the copy of three and one has.
fn copied_bytes(alloc: Global) -> Result<usize, Fail> {
    let mut bytes = Text8::of(alloc, b"red")?;
    bytes.add(0xff)?;
    Ok(bytes.copy(alloc)?.items().len())
}

#[test]
fn copies_equal_their_values(rt: HostRuntime) -> Result<(), Fail> {
    assert!(rt; is_text_copied(rt.alloc(), "red")?);
    assert_eq!(rt; copied_bytes(rt.alloc())?, 4);
    assert!(rt; is_value_copied(rt.alloc(), Value::Int(-7))?);
    assert!(rt; is_value_copied(rt.alloc(), Value::Str(Text::of(rt.alloc(), "red")?))?);
    Ok(())
}
