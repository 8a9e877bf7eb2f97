//! The image of a new volume, byte for byte.

use crate::table::{Table, unmet};
use crate::volumes::new_image;
use std::alloc::{AllocError, Global};
use std::test::Fail;

// Bytes in two digits each, up to the last that isn't 0.
fn digits(alloc: Global, bytes: &[u8]) -> Result<String, AllocError> {
    let mut text = String::new(alloc);
    let count = told_count(bytes).min(bytes.len());
    for byte in &bytes[..count] {
        text.push_str(format!(in alloc; "{byte:02x}")?.as_str())?;
    }
    Ok(text)
}

fn told_count(bytes: &[u8]) -> usize {
    let mut count = 0;
    for (at, byte) in bytes.iter().enumerate() {
        if *byte != 0 {
            count = at + 1;
        }
    }
    count
}

fn page_of(bytes: &[u8], page: usize) -> &[u8] {
    let begin = page.saturating_mul(4096).min(bytes.len());
    let end = begin.saturating_add(4096).min(bytes.len());
    &bytes[begin..end]
}

// Rows of a page and its bytes, those behind the last one being 0.
struct Pages;

impl Table for Pages {
    fn told(alloc: Global, given: &str) -> Result<String, Fail> {
        let page = given.parse::<usize>().ok().ok_or("a number")?;
        let image = new_image(alloc)?;
        Ok(digits(alloc, page_of(image.items(), page))?)
    }
}

// The image of a new volume of 64 pages, as docs/FORMATS.md has it.
#[test]
fn the_image_of_a_new_volume(rt: HostRuntime) -> Result<(), Fail> {
    const ROWS: &str = "\
0 => 4349434154315a
1 => 0000000000000001000000400000000300000019
2 =>\x20
3 => 00000000616e20656d70747920636174616c6f677565277320726f6f74
4 => 00000005
5 => 00000006
6 => 00000007
7 => 00000008
8 => 00000009
9 => 0000000a
10 => 0000000b
11 => 0000000c
12 => 0000000d
13 => 0000000e
14 => 0000000f
15 => 00000010
16 => 00000011
17 => 00000012
18 => 00000013
19 =>\x20";
    assert_eq!(rt; unmet::<Pages>(rt.alloc(), ROWS)?.as_str(), "");
    assert_eq!(rt; new_image(rt.alloc())?.items().len(), 81_920);
    Ok(())
}
