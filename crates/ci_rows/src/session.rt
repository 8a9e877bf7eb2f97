//! Worked sessions: what is read, and what is printed. A bar stands for a line feed.

use crate::sessions::{Sessions, in_pieces, kinds, session};
use crate::table::{Table, unmet};
use std::alloc::Global;
use std::test::Fail;

#[test]
fn lines_are_answered(rt: HostRuntime) -> Result<(), Fail> {
    // no lines; a put and a query; a last line without a line feed, and a carriage return before one
    const ROWS: &str = "\
\x20=> Done 0:\x20
put /d/a.txt Red fox|query FOX| => Done 7: 1 ok|2 hits 1 at 6|/d/a.txt|
put /d/a.txt red\r|query red => Done 7: 1 ok|2 hits 1 at 6|/d/a.txt|
wait| => Done 2: 1 done|
hello|wait|quit => Done 6: 1 bad|2 done|3 bye|";
    assert_eq!(rt; unmet::<Sessions>(rt.alloc(), ROWS)?.as_str(), "");
    Ok(())
}

#[test]
fn other_lines_are_bad(rt: HostRuntime) -> Result<(), Fail> {
    // no known line, an empty one, a path with an empty part, a query without a text; lines that
    // aren't UTF-8; lines that are known, and that nothing serves yet
    const ROWS: &str = "\
hello||put /d//a x|query|put /d/a| => Done 10: 1 bad|2 bad|3 bad|4 bad|5 bad|
changed /|changed /a//b|changed /a/../b| => Done 6: 1 bad|2 bad|3 bad|
wait |quit now|pending x| => Done 6: 1 bad|2 bad|3 bad|
put /a fo?x|?|changed /?|query ?|wait| => Done 10: 1 bad|2 bad|3 bad|4 bad|5 done|
shadow|master|step|scan| => Done 8: 1 bad|2 bad|3 bad|4 bad|
status|load 7 3| => Done 4: 1 bad|2 bad|";
    assert_eq!(rt; unmet::<Sessions>(rt.alloc(), ROWS)?.as_str(), "");
    Ok(())
}

#[test]
fn a_query_lists_the_documents_of_its_point(rt: HostRuntime) -> Result<(), Fail> {
    // asked for before and after a second put; the later text of a path; an empty one; between a
    // change and its put; a put behind a deletion
    const ROWS: &str = "\
put /d/b.txt fox|query fox|put /d/a.txt fox|query fox| => Done 14: 1 ok|2 hits 1 at 6|/d/b.txt|3 ok|4 hits 2 at 13|/d/a.txt|/d/b.txt|
put /d/a.txt fox|put /d/a.txt dog|query fox|query dog| => Done 14: 1 ok|2 ok|3 hits 0 at 10|4 hits 1 at 13|/d/a.txt|
put /d/a.txt |query fox| => Done 7: 1 ok|2 hits 0 at 6|
put /a fox|changed /a|query fox|put /a dog|query fox| => Done 17: 1 ok|2 ok|3 hits 1 at 9|/a|4 ok|5 hits 0 at 16|
put /a fox|deleted /a|put /a dog|query dog| => Done 15: 1 ok|2 ok|3 ok|4 hits 1 at 14|/a|";
    assert_eq!(rt; unmet::<Sessions>(rt.alloc(), ROWS)?.as_str(), "");
    Ok(())
}

#[test]
fn notices_are_pending_until_they_are_served(rt: HostRuntime) -> Result<(), Fail> {
    // in byte order of paths; a deletion takes the document away; of a path never put, and twice
    const ROWS: &str = "\
changed /d/a.txt|deleted /d/b.txt|pending| => Done 9: 1 ok|2 ok|3 pending 1|changed /d/a.txt|
changed /b|changed /a|put /c x|pending|put /a x|pending| => Done 18: 1 ok|2 ok|3 ok|4 pending 2|changed /a|changed /b|5 ok|6 pending 1|changed /b|
put /a fox|query fox|deleted /a|query fox|pending => Done 16: 1 ok|2 hits 1 at 6|/a|3 ok|4 hits 0 at 13|5 pending 0|
deleted /a|deleted /a|query fox|pending => Done 13: 1 ok|2 ok|3 hits 0 at 10|4 pending 0|";
    assert_eq!(rt; unmet::<Sessions>(rt.alloc(), ROWS)?.as_str(), "");
    Ok(())
}

// Rows of a front, of how many letters are behind it, and of what follows.
struct Filled;

impl Table for Filled {
    fn told(alloc: Global, given: &str) -> Result<String, Fail> {
        let (count, rest) = given.split_once(' ').ok_or("a count")?;
        let (front, behind) = rest.split_once("..").ok_or("a front")?;
        let mut text = String::from_str(alloc, front)?;
        for _ in 0..count.parse::<usize>().ok().ok_or("a number")? {
            text.push('a')?;
        }
        text.push_str(behind)?;
        session(alloc, text.as_str())
    }
}

#[test]
fn paths_and_lines_end_at_their_limits(rt: HostRuntime) -> Result<(), Fail> {
    const ROWS: &str = "\
1023 changed /.. => Done 3: 1 ok|
1024 changed /.. => Done 2: 1 bad|
65536 ..|wait| => Done 4: 1 bad|2 done|
65537 ..|wait| => Done 4: 1 long|2 done|
2000 put /a ..|wait| => Done 6: 1 ok|2 done|";
    assert_eq!(rt; unmet::<Filled>(rt.alloc(), ROWS)?.as_str(), "");
    Ok(())
}

#[test]
fn bytes_in_any_pieces_are_answered_alike(rt: HostRuntime) -> Result<(), Fail> {
    let lines = "put /d/a.txt Red fox\r\nhello\nquery FOX";
    let wanted = "Done 9: 1 ok|2 bad|3 hits 1 at 8|/d/a.txt|";
    for most in [1, 3, 4096] {
        let (told, _) = in_pieces(rt.alloc(), most, lines)?;
        assert_eq!(rt; told.as_str(), wanted);
    }
    Ok(())
}

#[test]
fn a_line_behind_quit_is_not_read(rt: HostRuntime) -> Result<(), Fail> {
    let (told, given) = in_pieces(rt.alloc(), 5, "quit\nput /d/a.txt red\n")?;
    assert_eq!(rt; told.as_str(), "Done 2: 1 bye|");
    assert_eq!(rt; given, 5);
    Ok(())
}

// Rows of lines: a letter for the kind of each event of their session.
struct Kinds;

impl Table for Kinds {
    fn told(alloc: Global, given: &str) -> Result<String, Fail> {
        kinds(alloc, given)
    }
}

#[test]
fn a_turn_has_its_steps(rt: HostRuntime) -> Result<(), Fail> {
    const ROWS: &str = "\
put /d/a.txt Red fox|query FOX| => qnpsqoa
changed /a|deleted /a| => qnsqnes
pending|wait|hello|quit| => qsqsqsqs";
    assert_eq!(rt; unmet::<Kinds>(rt.alloc(), ROWS)?.as_str(), "");
    Ok(())
}
