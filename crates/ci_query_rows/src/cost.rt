//! Documents and queries so large that a walk within a walk would not end in time.

use crate::copies::is_copied;
use crate::limits::repeated;
use crate::satisfy::holds;
use crate::table::{Table, all_hold, whether};
use std::alloc::Global;
use std::test::Fail;

// Rows of a document and a query, each of texts that stand so many times.
struct Large;

impl Table for Large {
    fn told(alloc: Global, given: &str) -> Result<String, Fail> {
        let (document, query) = given.split_once(": ").ok_or("a query")?;
        let document = repeated(alloc, document)?;
        let query = repeated(alloc, query)?;
        let held = holds(alloc, "/d/a.txt", document.as_str(), query.as_str())?;
        whether(alloc, held)
    }
}

#[test]
fn one_word_has_all_places(rt: HostRuntime) -> Result<(), Fail> {
    const ROWS: &str = "\
32760 x : 1 x ~ x => true
32760 x : 1 y ~ x => false
32760 x : 1 x* ~ x* => true
32760 x : 1 x x => true
32760 x : 1 x y => false";
    all_hold::<Large>(rt.alloc(), ROWS)
}

#[test]
fn a_phrase_has_1024_words(rt: HostRuntime) -> Result<(), Fail> {
    const ROWS: &str = "\
32760 x : 1 x;1023  x => true
32760 x : 1 y;1023  x => false
1000 x y : 1 x;511  y x => true
1000 x y : 1 x;511  y y => false";
    all_hold::<Large>(rt.alloc(), ROWS)
}

#[test]
fn near_has_1024_terms(rt: HostRuntime) -> Result<(), Fail> {
    const ROWS: &str = "\
32760 x : 1 x;1023  ~ x => true
32760 x : 1 y;1023  ~ x => false
1000 x y : 1 x;511  ~ y ~ x => true
1000 x y : 1 x y;511  ~ x y => true
1000 x y : 1 x y;511  ~ y y => false";
    all_hold::<Large>(rt.alloc(), ROWS)
}

#[test]
fn a_query_may_have_thousands_of_operands(rt: HostRuntime) -> Result<(), Fail> {
    const ROWS: &str = "\
1 ox: 1 @Size<1;8190 |@Size<1 => false
1 ox: 1 @Size=2;8190 |@Size<1 => true
1 ox: 1 @Size>1;8190 &@Size>1 => true
1 ox: 1 @Size=1;8190 &@Size>1 => false";
    all_hold::<Large>(rt.alloc(), ROWS)
}

#[test]
fn thousands_of_operands_are_copied(rt: HostRuntime) -> Result<(), Fail> {
    let query = repeated(rt.alloc(), "1 @Size<1;8190 |@Size<1")?;
    assert!(rt; is_copied(rt.alloc(), query.as_str())?);
    Ok(())
}
