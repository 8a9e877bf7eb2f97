//! Sessions that ask in the query dialect, and the faults of texts that are no query.

use crate::sessions::{Sessions, session};
use crate::table::unmet;
use std::alloc::Global;
use std::test::Fail;

#[test]
fn queries_are_of_the_dialect(rt: HostRuntime) -> Result<(), Fail> {
    // noise words keep their places in a phrase; documents that aren't there are no hits of NOT; a
    // prefix; words together; a comparison; a pattern
    const ROWS: &str = "\
put /d/a.txt king in hearts|query the|query \"king of hearts\"| => Done 9: 1 ok|2 query fault OnlyNoise at 0|3 hits 1 at 8|/d/a.txt|
put /d/a.txt red fox|put /d/b.txt red dog|changed /d/c.txt|query NOT fox| => Done 14: 1 ok|2 ok|3 ok|4 hits 1 at 13|/d/b.txt|
put /d/a.txt Red fox|query re*| => Done 7: 1 ok|2 hits 1 at 6|/d/a.txt|
put /d/a.txt Red fox|put /d/b.txt red dog|query red & dog| => Done 11: 1 ok|2 ok|3 hits 1 at 10|/d/b.txt|
put /d/a.txt Red fox|query @Size > 6| => Done 7: 1 ok|2 hits 1 at 6|/d/a.txt|
put /d/a.txt Red fox|query #Filename *.txt| => Done 7: 1 ok|2 hits 1 at 6|/d/a.txt|";
    assert_eq!(rt; unmet::<Sessions>(rt.alloc(), ROWS)?.as_str(), "");
    Ok(())
}

#[test]
fn the_first_fault_of_a_text_is_told(rt: HostRuntime) -> Result<(), Fail> {
    const ROWS: &str = "\
query (red| => Done 2: 1 query fault Bad at 4|
query \"\"| => Done 2: 1 query fault Bad at 0|
query | => Done 2: 1 query fault Bad at 0|
query @Colour red| => Done 2: 1 query fault UnknownProperty at 0|
query @Size fox| => Done 2: 1 query fault WrongKind at 0|
query @Size = x| => Done 2: 1 query fault WrongKind at 8|";
    assert_eq!(rt; unmet::<Sessions>(rt.alloc(), ROWS)?.as_str(), "");
    Ok(())
}

// Two documents with so many words between `one` and `two`, and a query for both near each other.
fn apart(alloc: Global, counts: &[usize]) -> Result<String, Fail> {
    let mut lines = String::new(alloc);
    for (count, name) in counts.iter().zip("ab".chars()) {
        write!(lines, "put /d/{name}.txt one")?;
        for _ in 0..*count {
            lines.push_str(" x")?;
        }
        lines.push_str(" two|")?;
    }
    lines.push_str("query one ~ two|")?;
    session(alloc, lines.as_str())
}

#[test]
fn words_are_near_within_fifty_places(rt: HostRuntime) -> Result<(), Fail> {
    let told = apart(rt.alloc(), &[49, 50])?;
    assert_eq!(rt;
        told.as_str(),
        "Done 11: 1 ok|2 ok|3 hits 1 at 10|/d/a.txt|"
    );
    Ok(())
}
