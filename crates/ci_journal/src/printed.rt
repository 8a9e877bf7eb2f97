ghost use Rattle.std.specs.Prelude.{◌≡◌, ◌++◌, IfOk, OnOk, flat_map, string_bytes};
ghost use Rattle.ci_journal.specs.Printed.{lines_of, answer_lines, line, list_lines, notice_line, reply_lines, what_text};

use crate::reply_text::print_text;
use crate::{Event, Happened, Reply};
use ci_base::{OutOfMemory, PathText, Text8};
use ci_change::{Notice, What};
use std::alloc::Global;

impl Event {
    /// The lines that the event prints: none, unless it replies to a request.
    pub fn lines(&self, alloc: Global) -> Result<Text8, OutOfMemory>
        ensures { IfOk result (λ text. text ≡ lines_of self.now.what) }
    {
        match &self.what {
            Happened::Asked { .. } => Ok(Text8::new(alloc)),
            Happened::Noted { .. } => Ok(Text8::new(alloc)),
            Happened::Put { .. } => Ok(Text8::new(alloc)),
            Happened::Erased { .. } => Ok(Text8::new(alloc)),
            Happened::Started => Ok(Text8::new(alloc)),
            Happened::StartFailed => Ok(Text8::new(alloc)),
            Happened::DaemonLost => Ok(Text8::new(alloc)),
            Happened::Begun { .. } => Ok(Text8::new(alloc)),
            Happened::BatchDone { .. } => Ok(Text8::new(alloc)),
            Happened::BatchDied { .. } => Ok(Text8::new(alloc)),
            Happened::Returned { .. } => Ok(Text8::new(alloc)),
            Happened::Shadowed => Ok(Text8::new(alloc)),
            Happened::MasterBegun => Ok(Text8::new(alloc)),
            Happened::MasterStep { .. } => Ok(Text8::new(alloc)),
            Happened::MasterEnded => Ok(Text8::new(alloc)),
            Happened::Opened { .. } => Ok(Text8::new(alloc)),
            Happened::Answered { id, at, paths } => print_answer(alloc, *id, *at, paths.items()),
            Happened::Said { id, reply } => print_reply(alloc, *id, reply),
        }
    }
}

fn print_reply(alloc: Global, id: u64, reply: &Reply) -> Result<Text8, OutOfMemory>
    ensures { IfOk result (λ text. text ≡ reply_lines id reply.now) }
{
    let text = print_text(alloc, reply)?;
    let mut lines = format!(in alloc; "{id} {text}\n")?;
    push_list(&mut lines, reply)?;
    Ok(Text8::from(lines.into_bytes()))
}

// The lines below the first one.
fn push_list(lines: &mut String, reply: &Reply) -> Result<(), OutOfMemory>
    ensures { OnOk result
        (string_bytes lines.new ≡ string_bytes lines.old ++ list_lines reply.now) }
{
    match reply {
        Reply::Pending(notices) => push_notices(lines, notices.items()),
        Reply::Unfiltered(paths) => push_paths(lines, paths.items()),
        Reply::Ok
        | Reply::Bad
        | Reply::Long
        | Reply::Outside
        | Reply::QueryFault { .. }
        | Reply::Filtered(_)
        | Reply::NoDaemon
        | Reply::Shadowed
        | Reply::Merged
        | Reply::Begun
        | Reply::Split(_)
        | Reply::Scanned { .. }
        | Reply::ListFault
        | Reply::Status(_)
        | Reply::Loaded { .. }
        | Reply::Done
        | Reply::Bye => Ok(()),
    }
}

fn push_notices(lines: &mut String, notices: &[Notice]) -> Result<(), OutOfMemory>
    ensures { OnOk result
        (string_bytes lines.new ≡ string_bytes lines.old ++ flat_map notice_line notices.now) }
{
    for notice in notices {
        lines.push_str(what_word(notice.what))?;
        lines.push(' ')?;
        lines.push_str(notice.path.as_str())?;
        lines.push('\n')?;
    }
    Ok(())
}

fn what_word(what: What) -> &'static str
    ensures { result.now ≡ what_text what }
{
    match what {
        What::Changed => "changed",
        What::Deleted => "deleted",
    }
}

fn push_paths(lines: &mut String, paths: &[PathText]) -> Result<(), OutOfMemory>
    ensures { OnOk result
        (string_bytes lines.new ≡ string_bytes lines.old ++ flat_map line paths.now) }
{
    for path in paths {
        lines.push_str(path.as_str())?;
        lines.push('\n')?;
    }
    Ok(())
}

fn print_answer(alloc: Global, id: u64, at: u64, paths: &[PathText]) -> Result<Text8, OutOfMemory>
    ensures { IfOk result (λ text. text ≡ answer_lines id at paths.now) }
{
    let mut lines = format!(in alloc; "{id} hits {} at {at}\n", paths.len())?;
    push_paths(&mut lines, paths)?;
    Ok(Text8::from(lines.into_bytes()))
}
