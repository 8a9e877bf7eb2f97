//! The catalogue's steps, and the journal that they leave.

use ci_base::{PathText, Seq};
use ci_core::{Catalog, Settings};
use ci_io::SureMemorySink;
use ci_journal::{Event, Happened, Notice, Paths, Reply, What};
use std::alloc::Global;
use std::test::Fail;

fn path(alloc: Global, text: &str) -> Result<PathText, Fail> {
    Ok(PathText::read(alloc, text.as_bytes()).ok().ok_or("a path")?)
}

#[test]
fn a_query_without_a_question_opens_nothing(rt: HostRuntime) -> Result<(), Fail> {
    let alloc = rt.alloc();
    let sink = SureMemorySink::new(alloc, 64, 64)?;
    let settings = Settings::standard(alloc)?;
    let mut catalog = Catalog::new(alloc, sink, &settings)
        .ok()
        .ok_or("no memory")?;
    assert!(rt; matches!(catalog.open_query(0), Ok(None)));
    let closed = catalog.close();
    assert!(rt; closed.journal.events().is_empty());
    Ok(())
}

// Whether the event prints these lines, and its copy counts so many bytes.
fn prints(alloc: Global, what: Happened, lines: &str, bytes: u64) -> Result<bool, Fail> {
    let event = Event { by: 0, what };
    Ok(event.lines(alloc)?.items() == lines.as_bytes() && event.copy(alloc)?.bytes() == bytes)
}

#[test]
fn replies_print(rt: HostRuntime) -> Result<(), Fail> {
    let reply = Happened::Said {
        id: 12,
        reply: Reply::Ok,
    };
    assert!(rt; prints(rt.alloc(), reply, "12 ok\n", 64 + 6)?);
    Ok(())
}

#[test]
fn answers_print(rt: HostRuntime) -> Result<(), Fail> {
    let alloc = rt.alloc();
    let mut paths = Paths::new(alloc);
    paths.add(path(alloc, "/d/a.txt")?)?;
    let answer = Happened::Answered {
        id: 3,
        at: 10,
        paths,
    };
    assert!(rt; prints(alloc, answer, "3 hits 1 at 10\n/d/a.txt\n", 64 + 16)?);
    Ok(())
}

#[test]
fn other_events_print_nothing(rt: HostRuntime) -> Result<(), Fail> {
    let alloc = rt.alloc();
    assert!(rt; prints(alloc, Happened::Opened { id: 1 }, "", 64)?);
    let noted = Happened::Noted {
        notice: Notice {
            path: path(alloc, "/a")?,
            seq: Seq(1),
            what: What::Changed,
        },
    };
    assert!(rt; prints(alloc, noted, "", 64 + 10)?);
    Ok(())
}
