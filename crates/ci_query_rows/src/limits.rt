//! How deep a query may be, and how many words it may have.

use crate::show::read;
use crate::table::{Table, all_hold};
use std::alloc::Global;
use std::test::Fail;

// Rows of texts that stand behind each other, each so many times. Of a long tree the first and the
// last bytes are told.
struct Stretched;

impl Table for Stretched {
    fn told(alloc: Global, given: &str) -> Result<String, Fail> {
        let text = repeated(alloc, given)?;
        let told = read(alloc, text.as_str())?;
        if told.as_str().len() < 20 {
            return Ok(told);
        }
        let front = told.as_str().get(..6).ok_or("a front")?;
        let end = told
            .as_str()
            .get(told.as_str().len() - 6..)
            .ok_or("an end")?;
        Ok(format!(in alloc; "{front}..{end}")?)
    }
}

/// Texts that stand behind each other, each behind how often it does.
pub(crate) fn repeated(alloc: Global, parts: &str) -> Result<String, Fail> {
    let mut text = String::new(alloc);
    for part in parts.split(';') {
        let (count, part) = part.split_once(' ').ok_or("a count")?;
        for _ in 0..count.parse::<usize>().ok().ok_or("a number")? {
            text.push_str(part)?;
        }
    }
    Ok(text)
}

#[test]
fn sixty_four_signs_may_be_open(rt: HostRuntime) -> Result<(), Fail> {
    // signs of both kinds count together, and a closed one counts no more
    const ROWS: &str = "\
64 (;1 fox;64 ) => 1:fox
64 !;1 fox => !!!!!!..!1:fox
1 !;64 (;1 fox;64 ) => TooDeep 64
65 !;1 fox => TooDeep 64
1 red & ;33 !( => TooDeep 70
1 fox;65 |(fox) => |(1:fo..1:fox)
64 (;1 fox => Bad 67";
    all_hold::<Stretched>(rt.alloc(), ROWS)
}

#[test]
fn a_query_has_1024_words(rt: HostRuntime) -> Result<(), Fail> {
    // the fault stands at the item with the 1,025th word
    const ROWS: &str = "\
1023 the ;1 fox => 1:fox
1023 the ;1 fox & red => TooLong 4098
1 \";1025 x ;1 \" => TooLong 0
1 @DocTitle ;1024 x ;1 \"y z\" => TooLong 2058
1 @Colour ;1025 x  => TooLong 2056
1024 x ;1 & the* => TooLong 2050";
    all_hold::<Stretched>(rt.alloc(), ROWS)
}
