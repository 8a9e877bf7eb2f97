//! Files in memory that the filters read.

use ci_base::{Text, Text8};
use ci_files::{MemoryFiles, SureMemoryFiles};
use std::alloc::Global;
use std::test::Fail;

/// The bytes of a document that is longer than a piece of text.
const LONG_BYTES: usize = 20_000;

/// A file of each kind, one that is no text, and a long one.
pub(crate) fn files(alloc: Global) -> Result<SureMemoryFiles, Fail> {
    let mut files = Vec::new(alloc);
    add_short(alloc, &mut files)?;
    add_long(alloc, &mut files)?;
    Ok(SureMemoryFiles::new(alloc, files))
}

/// One file.
pub(crate) fn one_file(alloc: Global, path: &str, bytes: &[u8]) -> Result<SureMemoryFiles, Fail> {
    Ok(SureMemoryFiles::new(alloc, list(alloc, path, bytes)?))
}

/// One file, of which the read of this number fails.
pub(crate) fn failing_file(
    alloc: Global,
    path: &str,
    bytes: &[u8],
    fails: u64,
) -> Result<MemoryFiles, Fail> {
    let fails = vec![in alloc; fails]?;
    Ok(MemoryFiles::new(alloc, list(alloc, path, bytes)?, fails))
}

/// No file, so that each read fails.
pub(crate) fn no_files(alloc: Global) -> MemoryFiles {
    MemoryFiles::new(alloc, Vec::new(alloc), Vec::new(alloc))
}

fn list(alloc: Global, path: &str, bytes: &[u8]) -> Result<Vec<(Text, Text8)>, Fail> {
    let mut files = Vec::new(alloc);
    add(alloc, &mut files, path, bytes)?;
    Ok(files)
}

fn add_short(alloc: Global, files: &mut Vec<(Text, Text8)>) -> Result<(), Fail> {
    add(alloc, files, "/a.txt", b"red")?;
    add(alloc, files, "/b.props", b"DocTitle: red\n\nfox")?;
    add(alloc, files, "/c.bin", b"\x00\xff")?;
    add(alloc, files, "/d.txt", b"\xff")
}

fn add_long(alloc: Global, files: &mut Vec<(Text, Text8)>) -> Result<(), Fail> {
    let bytes = long_bytes(alloc, LONG_BYTES, b"")?;
    add(alloc, files, "/long.txt", bytes.as_slice())
}

fn add(
    alloc: Global,
    files: &mut Vec<(Text, Text8)>,
    path: &str,
    bytes: &[u8],
) -> Result<(), Fail> {
    Ok(files.push(file(alloc, path, bytes)?)?)
}

fn file(alloc: Global, path: &str, bytes: &[u8]) -> Result<(Text, Text8), Fail> {
    Ok((Text::of(alloc, path)?, Text8::of(alloc, bytes)?))
}

/// So many bytes of one kind, and then these.
pub(crate) fn long_bytes(alloc: Global, count: usize, end: &[u8]) -> Result<Vec<u8>, Fail> {
    let mut bytes = Vec::new(alloc);
    for _ in 0..count {
        bytes.push(b'a')?;
    }
    bytes.extend_from_slice(end)?;
    Ok(bytes)
}
