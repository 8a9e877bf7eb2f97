//! Sessions that filter, over daemons in memory that find the word `red` in each document.

use crate::daemons::{daemons, heard};
use crate::sessions::{command, letters, sink, source, told};
use crate::table::{Table, unmet};
use ci_base::Text;
use ci_link::{MemorySpawner, Records};
use ci_server::{Status, run};
use std::alloc::Global;
use std::test::Fail;

// A session of these lines over these daemons, and behind a semicolon what each of them read.
fn session(alloc: Global, numbers: &str, given: &str) -> Result<String, Fail> {
    let words = command(alloc, &["cisvc", "steps", "/"])?;
    over(alloc, &words, daemons(alloc, numbers)?, given)
}

fn over(
    alloc: Global,
    words: &[Text],
    spawner: MemorySpawner,
    given: &str,
) -> Result<String, Fail> {
    let session = run(alloc, words, source(alloc, given)?, sink(alloc)?, spawner);
    told_and_heard(
        alloc,
        session.status,
        session.journal.events().len(),
        session.sink.bytes(),
        session.spawner.records(),
    )
}

fn told_and_heard(
    alloc: Global,
    status: Status,
    events: usize,
    printed: &[u8],
    records: &Records,
) -> Result<String, Fail> {
    let told = told(alloc, status, events, printed)?;
    let heard = heard(alloc, records)?;
    Ok(format!(in alloc; "{};{}", told.as_str(), heard.as_str())?)
}

// Rows of daemons and lines: how many documents each daemon reads, and the session.
pub(crate) struct Filterings;

impl Table for Filterings {
    fn told(alloc: Global, given: &str) -> Result<String, Fail> {
        let (numbers, lines) = given.split_once("; ").ok_or("daemons")?;
        session(alloc, numbers, lines)
    }
}

#[test]
fn what_was_changed_is_filtered(rt: HostRuntime) -> Result<(), Fail> {
    // nothing changed, so no daemon is started; one document; a daemon that is held for the next;
    // a text that was put serves the change
    const ROWS: &str = "\
; filter| => Done 2: 1 filtered 0|;
1; changed /d/a.txt|filter|query red|pending| => Done 13: 1 ok|2 filtered 0|3 hits 1 at 10|/d/a.txt|4 pending 0|; 1
2; changed /a|filter|changed /b|filter|query red| => Done 18: 1 ok|2 filtered 0|3 ok|4 filtered 0|5 hits 2 at 17|/a|/b|; 2
; changed /a|put /a fox|filter|query fox| => Done 12: 1 ok|2 ok|3 filtered 0|4 hits 1 at 11|/a|;";
    assert_eq!(rt; unmet::<Filterings>(rt.alloc(), ROWS)?.as_str(), "");
    Ok(())
}

#[test]
fn what_was_deleted_is_not_filtered(rt: HostRuntime) -> Result<(), Fail> {
    // beside another document that is; a change that a deletion overtook; a document that was filtered
    const ROWS: &str = "\
1; put /a fox|deleted /a|changed /b|filter|query fox|query red| => Done 22: 1 ok|2 ok|3 ok|4 filtered 0|5 hits 0 at 18|6 hits 1 at 21|/b|; 1
; changed /a|deleted /a|filter|pending| => Done 11: 1 ok|2 ok|3 filtered 0|4 pending 0|;
1; changed /a|filter|deleted /a|filter|query red| => Done 17: 1 ok|2 filtered 0|3 ok|4 filtered 0|5 hits 0 at 16|; 1";
    assert_eq!(rt; unmet::<Filterings>(rt.alloc(), ROWS)?.as_str(), "");
    Ok(())
}

#[test]
fn without_a_daemon_documents_stay_pending(rt: HostRuntime) -> Result<(), Fail> {
    // no start gives one; it dies at once and no other can be had; nothing is free any more
    const ROWS: &str = "\
; changed /d/a.txt|filter|pending| => Done 8: 1 ok|2 nodaemon|3 pending 1|changed /d/a.txt|;
0; changed /d/a.txt|filter|pending| => Done 11: 1 ok|2 nodaemon|3 pending 1|changed /d/a.txt|; 0
; changed /a|filter|deleted /a|filter| => Done 12: 1 ok|2 nodaemon|3 ok|4 filtered 0|;";
    assert_eq!(rt; unmet::<Filterings>(rt.alloc(), ROWS)?.as_str(), "");
    Ok(())
}

#[test]
fn a_document_is_set_aside_behind_four_deaths(rt: HostRuntime) -> Result<(), Fail> {
    // three deaths and a daemon that reads it; four deaths; a new change begins anew
    const ROWS: &str = "\
0 0 0 1; changed /a|filter|query red| => Done 20: 1 ok|2 filtered 0|3 hits 1 at 19|/a|; 0 0 0 1
0 0 0 0 1; changed /a|filter|query red|pending| => Done 22: 1 ok|2 filtered 1|3 hits 0 at 19|4 pending 0|; 0 0 0 0
0 0 0 0; changed /a|filter|changed /a|pending|unfiltered| => Done 24: 1 ok|2 filtered 1|3 ok|4 pending 1|changed /a|5 unfiltered 0|; 0 0 0 0
0 0 0 0 1; changed /a|filter|unfiltered|changed /a|filter|query red| => Done 30: 1 ok|2 filtered 1|3 unfiltered 1|/a|4 ok|5 filtered 0|6 hits 1 at 29|/a|; 0 0 0 0 1";
    assert_eq!(rt; unmet::<Filterings>(rt.alloc(), ROWS)?.as_str(), "");
    Ok(())
}

// The changes of so many documents.
fn changes(alloc: Global, count: usize) -> Result<String, Fail> {
    let mut lines = String::new(alloc);
    for number in 0..count {
        write!(lines, "changed /d/{:04}.txt|", number.saturating_add(1))?;
    }
    Ok(lines)
}

// So many documents are changed, filtered over these daemons, asked for and looked for.
fn changed(alloc: Global, numbers: &str, count: usize) -> Result<String, Fail> {
    let mut lines = changes(alloc, count)?;
    lines.push_str("filter|query red|pending|unfiltered|")?;
    session(alloc, numbers, lines.as_str())
}

fn is_listed(line: &str) -> bool {
    line.starts_with("/") || line.starts_with("changed ")
}

// What is told of a session but for its replies `ok` and what replies list.
fn brief(alloc: Global, told: &str) -> Result<String, Fail> {
    let (ended, printed) = told.split_once(": ").ok_or("an end")?;
    let mut kept = format!(in alloc; "{ended}:")?;
    for line in printed.split('|') {
        if !is_listed(line) && !line.ends_with(" ok") {
            write!(kept, " {line}")?;
        }
    }
    Ok(kept)
}

// Rows of how many documents are changed, and of daemons.
struct Batches;

impl Table for Batches {
    fn told(alloc: Global, given: &str) -> Result<String, Fail> {
        let (count, numbers) = given.split_once("; ").ok_or("daemons")?;
        let count = count.parse::<usize>().ok().ok_or("a number")?;
        let told = changed(alloc, numbers, count)?;
        brief(alloc, told.as_str())
    }
}

#[test]
fn a_bad_document_among_sixteen_is_set_aside(rt: HostRuntime) -> Result<(), Fail> {
    // four daemons that end at the third document, and one that reads the others; behind each of
    // the four deaths there is no document, and behind the last of them the third isn't pending
    const ROWS: &str = "\
16; 2 2 2 2 15 => Done 72: 17 filtered 1 18 hits 15 at 67 19 pending 0 20 unfiltered 1 ; 2 2 2 2 15
16; 2 => Done 61: 17 nodaemon 18 hits 0 at 56 19 pending 16 20 unfiltered 0 ; 2
16; 2 2 => Done 64: 17 nodaemon 18 hits 0 at 59 19 pending 16 20 unfiltered 0 ; 2 2
16; 2 2 2 => Done 67: 17 nodaemon 18 hits 0 at 62 19 pending 16 20 unfiltered 0 ; 2 2 2
16; 2 2 2 2 => Done 70: 17 nodaemon 18 hits 0 at 65 19 pending 15 20 unfiltered 1 ; 2 2 2 2";
    assert_eq!(rt; unmet::<Batches>(rt.alloc(), ROWS)?.as_str(), "");
    let told = changed(rt.alloc(), "2 2 2 2 15", 16)?;
    assert!(rt;
        told.as_str()
            .contains("|/d/0001.txt|/d/0002.txt|/d/0004.txt|/d/0005.txt|")
    );
    assert!(rt; told.as_str().contains("|20 unfiltered 1|/d/0003.txt|;"));
    Ok(())
}

#[test]
fn many_documents_are_filtered_in_batches(rt: HostRuntime) -> Result<(), Fail> {
    // a whole batch; one document more, over the same daemon; 125 batches
    const ROWS: &str = "\
16; 16 => Done 60: 17 filtered 0 18 hits 16 at 55 19 pending 0 20 unfiltered 0 ; 16
17; 17 => Done 65: 18 filtered 0 19 hits 17 at 60 20 pending 0 21 unfiltered 0 ; 17
2000; 2000 => Done 6260: 2001 filtered 0 2002 hits 2000 at 6255 2003 pending 0 2004 unfiltered 0 ; 2000";
    assert_eq!(rt; unmet::<Batches>(rt.alloc(), ROWS)?.as_str(), "");
    Ok(())
}

// Rows of daemons and lines: a letter for the kind of each event of their session.
struct Kinds;

impl Table for Kinds {
    fn told(alloc: Global, given: &str) -> Result<String, Fail> {
        let (numbers, lines) = given.split_once("; ").ok_or("daemons")?;
        let words = command(alloc, &["cisvc", "steps", "/"])?;
        steps_over(alloc, &words, daemons(alloc, numbers)?, lines)
    }
}

fn steps_over(
    alloc: Global,
    words: &[Text],
    spawner: MemorySpawner,
    given: &str,
) -> Result<String, Fail> {
    let session = run(alloc, words, source(alloc, given)?, sink(alloc)?, spawner);
    letters(alloc, session.journal.events())
}

#[test]
fn filtering_has_its_steps(rt: HostRuntime) -> Result<(), Fail> {
    // a daemon that is held, one that dies, and one that isn't tried behind eight starts that failed
    const ROWS: &str = "\
2; changed /a|filter|filter|changed /b|filter| => qnsqtbdsqsqnsqbds
0 1; changed /a|filter| => qnsqtbxtbds
; changed /a|filter|filter|filter|filter|filter|filter|filter|filter|filter| => qnsqfsqfsqfsqfsqfsqfsqfsqflsqs";
    assert_eq!(rt; unmet::<Kinds>(rt.alloc(), ROWS)?.as_str(), "");
    Ok(())
}
