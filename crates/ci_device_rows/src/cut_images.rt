//! The image of a new volume, cut at each page.

use crate::new_volumes::{Call, on_image};
use crate::table::{Table, unmet};
use crate::volumes::new_image;
use ci_base::{OutOfMemory, Text8};
use std::alloc::Global;
use std::test::Fail;

// The front of a new volume's image.
fn cut(alloc: Global, pages: usize) -> Result<Text8, OutOfMemory> {
    let image = new_image(alloc)?;
    let end = pages.saturating_mul(4096).min(image.items().len());
    Text8::of(alloc, &image.items()[..end])
}

// Rows of how many pages an image is cut to: whether its root is read, and its log held.
struct CutImages;

impl Table for CutImages {
    fn told(alloc: Global, given: &str) -> Result<String, Fail> {
        let pages = given.parse::<usize>().ok().ok_or("a number")?;
        Ok(cut_said(alloc, pages)?)
    }
}

const READ_ROOT: Call<'static> = Call {
    word: "read",
    first: 3,
    size: 25,
};

const HOLD_LOG: Call<'static> = Call {
    word: "hold",
    first: 4,
    size: 65_472,
};

fn cut_said(alloc: Global, pages: usize) -> Result<String, OutOfMemory> {
    let root = on_image(alloc, cut(alloc, pages)?, READ_ROOT)?;
    let log = on_image(alloc, cut(alloc, pages)?, HOLD_LOG)?;
    Ok(format!(in alloc; "{}; {}", root.as_str(), log.as_str())?)
}

// The root's page is the fourth, and the log has sixteen behind it.
#[test]
fn an_image_that_is_cut(rt: HostRuntime) -> Result<(), Fail> {
    const ROWS: &str = "\
0 => none; none
1 => none; none
2 => none; none
3 => none; none
4 => an empty catalogue's root; none
5 => an empty catalogue's root; none
6 => an empty catalogue's root; none
7 => an empty catalogue's root; none
8 => an empty catalogue's root; none
9 => an empty catalogue's root; none
10 => an empty catalogue's root; none
11 => an empty catalogue's root; none
12 => an empty catalogue's root; none
13 => an empty catalogue's root; none
14 => an empty catalogue's root; none
15 => an empty catalogue's root; none
16 => an empty catalogue's root; none
17 => an empty catalogue's root; none
18 => an empty catalogue's root; none
19 => an empty catalogue's root; none
20 => an empty catalogue's root; held";
    assert_eq!(rt; unmet::<CutImages>(rt.alloc(), ROWS)?.as_str(), "");
    Ok(())
}
