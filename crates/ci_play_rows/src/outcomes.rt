//! Documents that their filter refuses, or that fail: neither gets an entry.

use crate::standings::{holds_only, is_empty, list, waits_only};
use crate::steps::{begin, finish_with, note, put};
use ci_chunk::{Outcome, Status};
use ci_journal::What;
use ci_play::Step;
use std::alloc::Global;
use std::test::Fail;

// No filter takes the document.
fn refused() -> Outcome {
    Outcome::Refused(Status::FILTER_E_UNKNOWNFORMAT)
}

// Its file can't be read.
fn failed() -> Outcome {
    Outcome::Failed(Status::FILTER_E_ACCESS)
}

// One batch of the one document, which ends so, and a second one where something is free.
fn tried(alloc: Global, outcome: Outcome) -> Result<Vec<Step>, Fail> {
    let mut steps = Vec::new(alloc);
    note(&mut steps, "/p", What::Changed)?;
    begin(&mut steps, 8)?;
    finish_with(&mut steps, "/p", outcome)?;
    begin(&mut steps, 8)?;
    Ok(steps)
}

#[test]
fn what_failed_is_in_the_next_batch(rt: HostRuntime) -> Result<(), Fail> {
    let listed = list(rt.alloc(), tried(rt.alloc(), failed())?)?;
    assert_eq!(rt; listed.events, 4);
    assert!(rt; waits_only(&listed.standing, "/p", 1));
    assert!(rt; listed.standing.paths.items().is_empty());
    Ok(())
}

#[test]
fn what_was_refused_is_in_no_batch_any_more(rt: HostRuntime) -> Result<(), Fail> {
    let listed = list(rt.alloc(), tried(rt.alloc(), refused())?)?;
    assert_eq!(rt; listed.events, 3);
    assert!(rt; is_empty(&listed.standing));
    Ok(())
}

// The document changes while its batch is out, which then ends so.
fn overtaken(alloc: Global, outcome: Outcome) -> Result<Vec<Step>, Fail> {
    let mut steps = Vec::new(alloc);
    note(&mut steps, "/p", What::Changed)?;
    begin(&mut steps, 8)?;
    note(&mut steps, "/p", What::Changed)?;
    finish_with(&mut steps, "/p", outcome)?;
    Ok(steps)
}

#[test]
fn a_refusal_of_an_older_notice_says_nothing(rt: HostRuntime) -> Result<(), Fail> {
    let listed = list(rt.alloc(), overtaken(rt.alloc(), refused())?)?;
    assert!(rt; waits_only(&listed.standing, "/p", 2));
    Ok(())
}

// The text that is put behind the second change stays.
fn put_between(alloc: Global, outcome: Outcome) -> Result<Vec<Step>, Fail> {
    let mut steps = Vec::new(alloc);
    note(&mut steps, "/p", What::Changed)?;
    begin(&mut steps, 8)?;
    note(&mut steps, "/p", What::Changed)?;
    put(&mut steps, "/p", 2, "red")?;
    finish_with(&mut steps, "/p", outcome)?;
    Ok(steps)
}

#[test]
fn a_refused_document_keeps_its_entry(rt: HostRuntime) -> Result<(), Fail> {
    let listed = list(rt.alloc(), put_between(rt.alloc(), refused())?)?;
    assert!(rt; holds_only(&listed.standing, "/p"));
    assert!(rt; listed.standing.pending.items().is_empty());
    Ok(())
}
