//! How sessions end that aren't done, and the exit statuses.

use crate::sessions::{bounded, commanded, cut_off, unread};
use ci_server::Status;
use std::test::Fail;

#[test]
fn other_commands_are_refused(rt: HostRuntime) -> Result<(), Fail> {
    let rows: [&[&str]; 5] = [
        &["cisvc"],
        &["cisvc", "steps"],
        &["cisvc", "steps", "d"],
        &["cisvc", "steps", "--retries=0", "/"],
        &["cisvc", "steps", "/", "/"],
    ];
    for words in rows {
        assert_eq!(rt;
            commanded(rt.alloc(), words, "hello|")?.as_str(),
            "Usage 0: "
        );
    }
    Ok(())
}

#[test]
fn a_full_journal_ends_the_session(rt: HostRuntime) -> Result<(), Fail> {
    let alloc = rt.alloc();
    let mut line = String::from_str(alloc, "put /d/a.txt ")?;
    for _ in 0..59_999 {
        line.push('a')?;
    }
    let told = bounded(alloc, 65_536, 262_144, line.as_str())?;
    assert_eq!(rt;
        told.as_str(),
        "JournalFull { used: 60167, more: 60220 } 2: "
    );
    Ok(())
}

#[test]
fn a_path_too_many_ends_the_session(rt: HostRuntime) -> Result<(), Fail> {
    let lines = "put /d/a x|changed /d/a|put /d/b y|wait|";
    let told = bounded(rt.alloc(), 65_536, 1, lines)?;
    assert_eq!(rt; told.as_str(), "TooManyDocuments 8: 1 ok|2 ok|");
    Ok(())
}

#[test]
fn a_failing_sink_ends_the_session(rt: HostRuntime) -> Result<(), Fail> {
    let told = cut_off(rt.alloc(), 1, "put /d/a.txt red|")?;
    assert_eq!(rt; told.as_str(), "WriteFault 4: 1 o");
    // in the middle of a list of hits
    let told = cut_off(rt.alloc(), 9, "put /a red|put /b red|query red|wait|")?;
    assert_eq!(rt; told.as_str(), "WriteFault 11: 1 ok|2 ok|3 hits 2 at 10|");
    Ok(())
}

#[test]
fn a_failing_source_ends_the_session(rt: HostRuntime) -> Result<(), Fail> {
    for (fails, wanted) in [(0, "ReadFault 0: "), (1, "ReadFault 2: 1 bad|")] {
        assert_eq!(rt; unread(rt.alloc(), fails, "hello|")?.as_str(), wanted);
    }
    Ok(())
}

#[test]
fn statuses_have_their_codes(rt: HostRuntime) -> Result<(), Fail> {
    let rows = [
        (Status::Done, 0, "Done"),
        (Status::Usage, 2, "Usage"),
        (Status::ReadFault, 3, "ReadFault"),
        (Status::WriteFault, 4, "WriteFault"),
        (Status::JournalFull { used: 1, more: 2 }, 8, "JournalFull"),
        (Status::TooManyDocuments, 9, "TooManyDocuments"),
        (Status::OutOfMemory, 10, "OutOfMemory"),
        (Status::EndlessLine, 12, "EndlessLine"),
    ];
    for (status, code, name) in rows {
        assert_eq!(rt; status.exit_code(), code);
        assert_eq!(rt; status.name(), name);
    }
    Ok(())
}
