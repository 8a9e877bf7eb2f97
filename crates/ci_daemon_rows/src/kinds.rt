//! What each filter says of each kind of file.

use crate::files::{long_bytes, one_file};
use crate::said::said;
use crate::table::{Table, all_hold};
use ci_filters::{FormatFilter, Null, Plain, Props};
use std::alloc::Global;
use std::test::Fail;

const MAX: u32 = 65_536;

const MANY: usize = 1_048_576;

// What is said of one file by the filter that takes its path.
fn of_file(alloc: Global, path: &str, bytes: &[u8], max: u32) -> Result<String, Fail> {
    if path.ends_with(".props") {
        return by_props(alloc, path, bytes, max);
    }
    if path.ends_with(".bin") || path.ends_with(".dat") {
        return by_null(alloc, path, bytes, max);
    }
    by_plain(alloc, path, bytes, max)
}

fn by_props(alloc: Global, path: &str, bytes: &[u8], max: u32) -> Result<String, Fail> {
    let files = one_file(alloc, path, bytes)?;
    said(alloc, &mut FormatFilter::new(files, Props), path, max)
}

fn by_null(alloc: Global, path: &str, bytes: &[u8], max: u32) -> Result<String, Fail> {
    let files = one_file(alloc, path, bytes)?;
    said(alloc, &mut FormatFilter::new(files, Null), path, max)
}

fn by_plain(alloc: Global, path: &str, bytes: &[u8], max: u32) -> Result<String, Fail> {
    let files = one_file(alloc, path, bytes)?;
    said(alloc, &mut FormatFilter::new(files, Plain), path, max)
}

// Line feeds stand in rows as marks.
fn with_feeds(alloc: Global, text: &str) -> Result<String, Fail> {
    swapped(alloc, text, '~', '\n')
}

fn without_feeds(alloc: Global, text: &str) -> Result<String, Fail> {
    swapped(alloc, text, '\n', '~')
}

fn swapped(alloc: Global, text: &str, from: char, to: char) -> Result<String, Fail> {
    let mut out = String::new(alloc);
    for letter in text.chars() {
        out.push(if letter == from { to } else { letter })?;
    }
    Ok(out)
}

// What is said of a file of these bytes, from its third chunk on, behind the name and the size.
fn behind_size(alloc: Global, path: &str, bytes: &[u8]) -> Result<String, Fail> {
    let whole = of_file(alloc, path, bytes, MAX)?;
    let (_, rest) = whole.as_str().split_once(" | 3:").ok_or("a third chunk")?;
    without_feeds(alloc, rest)
}

fn of_text(alloc: Global, path: &str, text: &str) -> Result<String, Fail> {
    let whole = of_file(alloc, path, text.as_bytes(), MAX)?;
    without_feeds(alloc, whole.as_str())
}

// Rows of a path and a text, with a mark for each line feed.
struct Files;

impl Table for Files {
    fn told(alloc: Global, given: &str) -> Result<String, Fail> {
        let (path, text) = given.split_once(' ').ok_or("a text")?;
        let text = with_feeds(alloc, text)?;
        of_text(alloc, path, text.as_str())
    }
}

#[test]
fn plain_files(rt: HostRuntime) -> Result<(), Fail> {
    const ROWS: &str = "\
/a.txt  => ok | 1:2 'a.txt' ok no_more_values | 2:3 int 0 ok no_more_values | 3:1 no_more_text end
/d/b.md x => ok | 1:2 'b.md' ok no_more_values | 2:3 int 1 ok no_more_values | 3:1 'x' last no_more_text end
/.log h\u{e9} => ok | 1:2 '.log' ok no_more_values | 2:3 int 3 ok no_more_values | 3:1 'h\u{e9}' last no_more_text end
/a.csv 1,2~ => ok | 1:2 'a.csv' ok no_more_values | 2:3 int 4 ok no_more_values | 3:1 '1,2~' last no_more_text end
/a.TXT x => unknown
/a.txt/b x => unknown
/atxt x => unknown";
    all_hold::<Files>(rt.alloc(), ROWS)
}

// Rows of how many bytes a piece may have.
struct Pieces;

impl Table for Pieces {
    fn told(alloc: Global, given: &str) -> Result<String, Fail> {
        let max = given.parse::<u32>().ok().ok_or("a number")?;
        of_file(alloc, "/a.txt", "ab\u{e9}cde".as_bytes(), max)
    }
}

#[test]
fn pieces_of_few_bytes(rt: HostRuntime) -> Result<(), Fail> {
    const ROWS: &str = "\
4 => ok | 1:2 'a.txt' ok no_more_values | 2:3 int 7 ok no_more_values | 3:1 'ab\u{e9}' ok 'cde' last no_more_text end
5 => ok | 1:2 'a.txt' ok no_more_values | 2:3 int 7 ok no_more_values | 3:1 'ab\u{e9}c' ok 'de' last no_more_text end
3 => ok | 1:2 'a.txt' ok no_more_values | 2:3 int 7 ok no_more_values | 3:1 'ab\u{e9}cde' last no_more_text end
0 => ok | 1:2 'a.txt' ok no_more_values | 2:3 int 7 ok no_more_values | 3:1 'ab\u{e9}cde' last no_more_text end";
    all_hold::<Pieces>(rt.alloc(), ROWS)
}

// What is said of a file with so many bytes and an end.
fn of_long(alloc: Global, path: &str, count: usize, end: &[u8]) -> Result<String, Fail> {
    let bytes = long_bytes(alloc, count, end)?;
    of_file(alloc, path, bytes.as_slice(), MAX)
}

fn long_file(alloc: Global, count: usize, end: &str) -> Result<String, Fail> {
    let bytes = long_bytes(alloc, count, end.as_bytes())?;
    behind_size(alloc, "/a.txt", bytes.as_slice())
}

// Rows of how many bytes a plain file has, and of its end.
struct LongFiles;

impl Table for LongFiles {
    fn told(alloc: Global, given: &str) -> Result<String, Fail> {
        let (count, end) = given.split_once(' ').ok_or("an end")?;
        long_file(alloc, count.parse::<usize>().ok().ok_or("a number")?, end)
    }
}

#[test]
fn long_plain_files(rt: HostRuntime) -> Result<(), Fail> {
    const ROWS: &str = "\
16384  => 1 long 16384 last no_more_text end
16384 b => 1 long 16384 ok 'b' last no_more_text end
16383 \u{e9} => 1 long 16383 ok '\u{e9}' last no_more_text end";
    all_hold::<LongFiles>(rt.alloc(), ROWS)
}

// Rows of the ends of files that are as long as a file may be, without an end.
struct TooLong;

impl Table for TooLong {
    fn told(alloc: Global, given: &str) -> Result<String, Fail> {
        of_long(alloc, "/a.dat", MANY, given.as_bytes())
    }
}

// Whether a text that is cut within its last character has the size of its first bytes.
fn begins_whole(alloc: Global) -> Result<bool, Fail> {
    let told = of_long(alloc, "/a.txt", MANY - 1, "\u{e9}".as_bytes())?;
    let front = "ok | 1:2 'a.txt' ok no_more_values | 2:3 int 1048576 ok";
    Ok(told.as_str().starts_with(front))
}

#[test]
fn files_that_are_too_long(rt: HostRuntime) -> Result<(), Fail> {
    const ROWS: &str = "\
\x20=> ok | 1:2 'a.dat' ok no_more_values | 2:3 int 1048576 ok no_more_values end
b => ok | 1:2 'a.dat' ok no_more_values | 2:3 int 1048576 ok no_more_values end";
    all_hold::<TooLong>(rt.alloc(), ROWS)?;
    assert!(rt; begins_whole(rt.alloc())?);
    Ok(())
}

fn is_unknown(alloc: Global, path: &str, bytes: &[u8]) -> Result<bool, Fail> {
    Ok(of_file(alloc, path, bytes, MAX)?.as_str() == "unknown")
}

fn are_unknown(alloc: Global, bytes: &[u8]) -> Result<bool, Fail> {
    Ok(is_unknown(alloc, "/a.txt", bytes)? && is_unknown(alloc, "/a.props", bytes)?)
}

fn is_long_unknown(alloc: Global) -> Result<bool, Fail> {
    let bytes = long_bytes(alloc, MANY - 1, b"\xff")?;
    is_unknown(alloc, "/a.txt", bytes.as_slice())
}

#[test]
fn bytes_that_are_no_text(rt: HostRuntime) -> Result<(), Fail> {
    assert!(rt; are_unknown(rt.alloc(), b"\xff")?);
    assert!(rt; are_unknown(rt.alloc(), b"a\xc3")?);
    assert!(rt; are_unknown(rt.alloc(), b"\x80b")?);
    assert!(rt; is_long_unknown(rt.alloc())?);
    Ok(())
}

// Rows of files with a head, with a mark for each line feed.
struct Headed;

impl Table for Headed {
    fn told(alloc: Global, given: &str) -> Result<String, Fail> {
        let text = with_feeds(alloc, given)?;
        behind_size(alloc, "/a.props", text.as_str().as_bytes())
    }
}

#[test]
fn heads(rt: HostRuntime) -> Result<(), Fail> {
    const ROWS: &str = "\
\x20=> 1 no_more_text end
~rest => 1 'rest' last no_more_text end
\r~rest => 1 'rest' last no_more_text end
DocTitle: red fox~~rest~ => 5 'red fox' last no_more_text | 4:5 'red fox' ok no_more_values | 5:1 'rest~' last no_more_text end
DocTitle: red\r~Write: 7\r~\r~rest => 5 'red' last no_more_text | 4:5 'red' ok no_more_values | 5:4 int 7 ok no_more_values | 6:1 'rest' last no_more_text end
doctitle: red~rest: ~ => 5 'red' last no_more_text | 4:5 'red' ok no_more_values | 5:1 no_more_text end
DocTitle: red~rest => 5 'red' last no_more_text | 4:5 'red' ok no_more_values | 5:1 'rest' last no_more_text end
DocTitle: red~no mark~~rest => 5 'red' last no_more_text | 4:5 'red' ok no_more_values | 5:1 'no mark~~rest' last no_more_text end
DocTitle: red => 1 'DocTitle: red' last no_more_text end
Unknown: red~Contents: x~Size: 3~~rest => 1 'rest' last no_more_text end
Write: 99999999999999999999~Write: x~Write: +1~Write: ~~ => 1 no_more_text end
Write: 9223372036854775808~~ => 1 no_more_text end
Write: 9223372036854775807~~ => 4 int 9223372036854775807 ok no_more_values | 4:1 no_more_text end
Write: -9223372036854775808~~ => 4 int -9223372036854775808 ok no_more_values | 4:1 no_more_text end
DocAuthor: a: b~~ => 7 'a: b' last no_more_text | 4:7 'a: b' ok no_more_values | 5:1 no_more_text end
DocKeywords: ~~ => 8 no_more_text | 4:8 '' ok no_more_values | 5:1 no_more_text end";
    all_hold::<Headed>(rt.alloc(), ROWS)
}
