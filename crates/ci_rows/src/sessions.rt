//! Sessions over memory, as the tests begin them: text in, text out. No contract of a session is
//! seen by a test, so that proving the tests takes little.

ghost use Rattle.std.specs.Prelude.{◌≤◌};

use crate::daemons::no_daemon;
use crate::pieces::Pieces;
use crate::table::Table;
use ci_base::{Text, Text8};
use ci_core::Settings;
use ci_io::{MemorySink, MemorySource, SureMemorySink, SureMemorySource};
use ci_journal::{Event, Happened};
use ci_server::{Status, run, run_steps};
use ci_words::NoiseList;
use std::alloc::Global;
use std::test::Fail;

/// How a session ended, how many events it had, and behind a colon what it printed, a bar for a
/// line feed.
pub(crate) fn told(
    alloc: Global,
    status: Status,
    events: usize,
    printed: &[u8],
) -> Result<String, Fail> {
    let mut told = format!(in alloc; "{status:?} {events}: ")?;
    for byte in printed {
        told.push(if *byte == b'\n' {
            '|'
        } else {
            char::from(*byte)
        })?;
    }
    Ok(told)
}

// Lines, of which each bar is a line feed, and each question mark a byte that no text has.
fn lines(alloc: Global, given: &str) -> Result<Text8, Fail> {
    let mut bytes = Vec::new(alloc);
    for byte in given.bytes() {
        bytes.push(match byte {
            b'|' => b'\n',
            b'?' => 0xff,
            _ => byte,
        })?;
    }
    Ok(Text8::from(bytes))
}

/// The words of a command line.
pub(crate) fn command(alloc: Global, words: &[&str]) -> Result<Vec<Text>, Fail> {
    let mut command = Vec::new(alloc);
    for word in words {
        command.push(Text::of(alloc, word)?)?;
    }
    Ok(command)
}

/// A source of lines.
pub(crate) fn source(alloc: Global, given: &str) -> Result<SureMemorySource, Fail> {
    Ok(SureMemorySource::new(alloc, lines(alloc, given)?))
}

/// A sink with room for what is printed.
pub(crate) fn sink(alloc: Global) -> Result<SureMemorySink, Fail> {
    Ok(SureMemorySink::new(alloc, 4096, 65_536)?)
}

/// Rows of lines: a session of the program `cisvc` over them.
pub(crate) struct Sessions;

impl Table for Sessions {
    fn told(alloc: Global, given: &str) -> Result<String, Fail> {
        session(alloc, given)
    }
}

/// A session of the program `cisvc` over these lines.
pub(crate) fn session(alloc: Global, given: &str) -> Result<String, Fail> {
    commanded(alloc, &["cisvc", "steps", "/"], given)
}

/// The same under another command line.
pub(crate) fn commanded(alloc: Global, words: &[&str], given: &str) -> Result<String, Fail> {
    let words = command(alloc, words)?;
    let session = run(
        alloc,
        &words,
        source(alloc, given)?,
        sink(alloc)?,
        no_daemon(alloc),
    );
    told(
        alloc,
        session.status,
        session.journal.events().len(),
        session.sink.bytes(),
    )
}

/// A session with so many bytes for its journal and so many documents.
pub(crate) fn bounded(
    alloc: Global,
    journal: u64,
    documents: u32,
    given: &str,
) -> Result<String, Fail>
    requires low { 65536 ≤ journal }
    requires high { journal ≤ 268435456 }
    requires some { 1 ≤ documents }
    requires few { documents ≤ 262144 }
{
    let noise = NoiseList::standard(alloc)?;
    let settings = Settings {
        journal,
        documents,
        retries: 4,
        noise,
        daemon: Text::of(alloc, "./cidaemon")?,
    };
    let session = run_steps(
        alloc,
        &settings,
        source(alloc, given)?,
        sink(alloc)?,
        no_daemon(alloc),
    );
    told(
        alloc,
        session.status,
        session.journal.events().len(),
        session.sink.bytes(),
    )
}

/// A session whose sink takes three bytes a call, and fails at the call with this number.
pub(crate) fn cut_off(alloc: Global, fails: u64, given: &str) -> Result<String, Fail> {
    let fails = vec![in alloc; fails]?;
    let sink = MemorySink::new(alloc, 3, fails, 4096)?;
    let words = command(alloc, &["cisvc", "steps", "/"])?;
    let session = run(alloc, &words, source(alloc, given)?, sink, no_daemon(alloc));
    told(
        alloc,
        session.status,
        session.journal.events().len(),
        session.sink.bytes(),
    )
}

/// A session whose source fails at the call with this number.
pub(crate) fn unread(alloc: Global, fails: u64, given: &str) -> Result<String, Fail> {
    let fails = vec![in alloc; fails]?;
    let source = MemorySource::new(alloc, lines(alloc, given)?, fails);
    let words = command(alloc, &["cisvc", "steps", "/"])?;
    let session = run(alloc, &words, source, sink(alloc)?, no_daemon(alloc));
    told(
        alloc,
        session.status,
        session.journal.events().len(),
        session.sink.bytes(),
    )
}

/// A session whose source gives at most so many bytes a call, and how many it gave.
pub(crate) fn in_pieces(alloc: Global, most: usize, given: &str) -> Result<(String, usize), Fail> {
    let source = Pieces::of(alloc, given, most)?;
    let settings = Settings::standard(alloc)?;
    let session = run_steps(alloc, &settings, source, sink(alloc)?, no_daemon(alloc));
    let given = session.source.given;
    let text = told(
        alloc,
        session.status,
        session.journal.events().len(),
        session.sink.bytes(),
    )?;
    Ok((text, given))
}

/// The journal of a session: a letter for each event's kind.
pub(crate) fn kinds(alloc: Global, given: &str) -> Result<String, Fail> {
    let words = command(alloc, &["cisvc", "steps", "/"])?;
    let session = run(
        alloc,
        &words,
        source(alloc, given)?,
        sink(alloc)?,
        no_daemon(alloc),
    );
    letters(alloc, session.journal.events())
}

/// A letter for each event's kind.
pub(crate) fn letters(alloc: Global, events: &[Event]) -> Result<String, Fail> {
    let mut letters = String::new(alloc);
    for event in events {
        letters.push(letter(&event.what))?;
    }
    Ok(letters)
}

fn letter(what: &Happened) -> char {
    match what {
        Happened::Asked { .. } => 'q',
        Happened::Noted { .. } => 'n',
        Happened::Put { .. } => 'p',
        Happened::Erased { .. } => 'e',
        Happened::Started => 't',
        Happened::StartFailed => 'f',
        Happened::DaemonLost => 'l',
        Happened::Begun { .. } => 'b',
        Happened::BatchDone { .. } => 'd',
        Happened::BatchDied { .. } => 'x',
        Happened::Returned { .. } => 'r',
        Happened::Opened { .. } => 'o',
        Happened::Answered { .. } => 'a',
        Happened::Said { .. } => 's',
        _ => '?',
    }
}
