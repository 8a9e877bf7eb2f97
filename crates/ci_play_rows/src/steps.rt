//! Lists of steps as the tests write them: each call adds a step.

use ci_base::{PathText, Seq, Text};
use ci_change::{Batch, Docs};
use ci_chunk::{Outcome, Outcomes, Transcript};
use ci_journal::{Paths, Reply, Request, What};
use ci_play::Step;
use std::alloc::Global;
use std::test::Fail;

pub(crate) fn path(alloc: Global, text: &str) -> Result<PathText, Fail> {
    Ok(PathText::read(alloc, text.as_bytes())?)
}

/// A query is asked.
pub(crate) fn ask(steps: &mut Vec<Step>, text: &str) -> Result<(), Fail> {
    let text = Text::of(*steps.allocator(), text)?;
    steps.push(Step::Ask {
        by: 0,
        request: Request::Query(text),
    })?;
    Ok(())
}

/// A query of so many spaces is asked.
pub(crate) fn ask_spaces(steps: &mut Vec<Step>, count: usize) -> Result<(), Fail> {
    let text = spaces(*steps.allocator(), count)?;
    ask(steps, text.as_str())
}

fn spaces(alloc: Global, count: usize) -> Result<String, Fail> {
    let mut text = String::new(alloc);
    for _ in 0..count {
        text.push(' ')?;
    }
    Ok(text)
}

/// The document is noted.
pub(crate) fn note(steps: &mut Vec<Step>, text: &str, what: What) -> Result<(), Fail> {
    let path = path(*steps.allocator(), text)?;
    steps.push(Step::Note { by: 0, path, what })?;
    Ok(())
}

/// The document is put under its notice.
pub(crate) fn put(steps: &mut Vec<Step>, name: &str, seq: u64, text: &str) -> Result<(), Fail> {
    let alloc = *steps.allocator();
    let path = path(alloc, name)?;
    let transcript = Transcript::plain(alloc, &path, text)?;
    steps.push(Step::Put {
        by: 0,
        path,
        seq: Seq(seq),
        transcript,
    })?;
    Ok(())
}

/// The document is erased.
pub(crate) fn erase(steps: &mut Vec<Step>, text: &str) -> Result<(), Fail> {
    let path = path(*steps.allocator(), text)?;
    steps.push(Step::Erase { by: 0, path })?;
    Ok(())
}

/// The filter worker begins a batch.
pub(crate) fn begin(steps: &mut Vec<Step>, max: usize) -> Result<(), Fail> {
    steps.push(Step::BeginBatch { by: 1, max })?;
    Ok(())
}

// The batch with a number, which is of this document under the first notice.
fn batch(alloc: Global, number: u64, text: &str) -> Result<Batch, Fail> {
    let mut docs = Docs::new(alloc);
    docs.add((path(alloc, text)?, Seq(1)))?;
    Ok(Batch { number, docs })
}

/// It finishes the first batch, which is of this document.
pub(crate) fn finish(steps: &mut Vec<Step>, text: &str) -> Result<(), Fail> {
    let transcript = Transcript::new(*steps.allocator());
    finish_with(steps, text, Outcome::Done(transcript))
}

/// The first batch, which is of this document, has this outcome.
pub(crate) fn finish_with(steps: &mut Vec<Step>, text: &str, outcome: Outcome) -> Result<(), Fail> {
    let alloc = *steps.allocator();
    let batch = batch(alloc, 1, text)?;
    let mut outcomes = Outcomes::new(alloc);
    outcomes.add(outcome)?;
    steps.push(Step::FinishBatch {
        by: 1,
        batch,
        outcomes,
    })?;
    Ok(())
}

/// The daemon dies within the one document of the batch with a number, at a place of it.
pub(crate) fn die(steps: &mut Vec<Step>, number: u64, text: &str, at: u32) -> Result<(), Fail> {
    let batch = batch(*steps.allocator(), number, text)?;
    steps.push(Step::BatchDied {
        by: 1,
        batch,
        charged: at,
    })?;
    Ok(())
}

/// It gives the first batch back, which is of this document.
pub(crate) fn give_back(steps: &mut Vec<Step>, text: &str) -> Result<(), Fail> {
    let batch = batch(*steps.allocator(), 1, text)?;
    steps.push(Step::ReturnBatch { by: 1, batch })?;
    Ok(())
}

/// The daemon was started.
pub(crate) fn start(steps: &mut Vec<Step>) -> Result<(), Fail> {
    steps.push(Step::Started { by: 1 })?;
    Ok(())
}

/// It couldn't be started.
pub(crate) fn fail_start(steps: &mut Vec<Step>) -> Result<(), Fail> {
    steps.push(Step::StartFailed { by: 1 })?;
    Ok(())
}

/// The next query is opened.
pub(crate) fn open(steps: &mut Vec<Step>) -> Result<(), Fail> {
    steps.push(Step::OpenQuery { by: 0 })?;
    Ok(())
}

/// The first request is answered at this place, with no document.
pub(crate) fn answer_none(steps: &mut Vec<Step>, at: u64) -> Result<(), Fail> {
    let paths = Paths::new(*steps.allocator());
    add_answer(steps, at, paths)
}

/// The first request is answered at this place, with one document.
pub(crate) fn answer(steps: &mut Vec<Step>, at: u64, text: &str) -> Result<(), Fail> {
    let alloc = *steps.allocator();
    let mut paths = Paths::new(alloc);
    paths.add(path(alloc, text)?)?;
    add_answer(steps, at, paths)
}

fn add_answer(steps: &mut Vec<Step>, at: u64, paths: Paths) -> Result<(), Fail> {
    steps.push(Step::Answer {
        by: 0,
        id: 1,
        at,
        paths,
    })?;
    Ok(())
}

/// The first request is told that it is done.
pub(crate) fn say_ok(steps: &mut Vec<Step>) -> Result<(), Fail> {
    steps.push(Step::Say {
        by: 0,
        id: 1,
        reply: Reply::Ok,
    })?;
    Ok(())
}

/// A batch of `/p` is out, and the notice behind it finds the journal full: of its 65,536 bytes the
/// request takes 65,380, the notice of `/p` 74 and the batch 82.
pub(crate) fn full_with_a_batch(alloc: Global) -> Result<Vec<Step>, Fail> {
    let mut steps = Vec::new(alloc);
    ask_spaces(&mut steps, 65_308)?;
    note(&mut steps, "/p", What::Changed)?;
    begin(&mut steps, 8)?;
    note(&mut steps, "/q", What::Changed)?;
    Ok(steps)
}
