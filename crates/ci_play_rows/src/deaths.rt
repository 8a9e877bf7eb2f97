//! Daemons that die: each death spends one attempt at one document, and changes no entry.

use crate::standings::{is_empty, list, play_both, waits_only};
use crate::starts::is_full;
use crate::steps::{begin, die, finish, full_with_a_batch, note};
use ci_journal::What;
use ci_play::Step;
use std::alloc::Global;
use std::test::Fail;

// So many batches of the one document, in each of which the daemon dies.
fn deaths(alloc: Global, count: u64) -> Result<Vec<Step>, Fail> {
    let mut steps = Vec::new(alloc);
    note(&mut steps, "/p", What::Changed)?;
    for before in 0..count {
        begin(&mut steps, 8)?;
        die(&mut steps, before + 1, "/p", 0)?;
    }
    Ok(steps)
}

#[test]
fn a_document_is_pending_again_behind_three_deaths(rt: HostRuntime) -> Result<(), Fail> {
    let listed = list(rt.alloc(), deaths(rt.alloc(), 3)?)?;
    assert_eq!(rt; listed.events, 7);
    assert!(rt; waits_only(&listed.standing, "/p", 1));
    assert!(rt; listed.standing.paths.items().is_empty());
    Ok(())
}

// The fifth batch finds nothing free.
fn set_aside(alloc: Global) -> Result<Vec<Step>, Fail> {
    let mut steps = deaths(alloc, 4)?;
    begin(&mut steps, 8)?;
    Ok(steps)
}

#[test]
fn a_document_is_set_aside_behind_four_deaths(rt: HostRuntime) -> Result<(), Fail> {
    let listed = list(rt.alloc(), set_aside(rt.alloc())?)?;
    assert_eq!(rt; listed.events, 9);
    assert!(rt; is_empty(&listed.standing));
    Ok(())
}

fn noted_again(alloc: Global) -> Result<Vec<Step>, Fail> {
    let mut steps = set_aside(alloc)?;
    note(&mut steps, "/p", What::Changed)?;
    Ok(steps)
}

#[test]
fn a_new_notice_begins_anew(rt: HostRuntime) -> Result<(), Fail> {
    let listed = list(rt.alloc(), noted_again(rt.alloc())?)?;
    assert_eq!(rt; listed.events, 10);
    assert!(rt; waits_only(&listed.standing, "/p", 2));
    Ok(())
}

// A place that the batch hasn't, a death of a batch that is out no more, and its end: none is made.
fn wrong(alloc: Global) -> Result<Vec<Step>, Fail> {
    let mut steps = Vec::new(alloc);
    note(&mut steps, "/p", What::Changed)?;
    begin(&mut steps, 8)?;
    die(&mut steps, 1, "/p", 1)?;
    die(&mut steps, 1, "/p", 0)?;
    die(&mut steps, 1, "/p", 0)?;
    finish(&mut steps, "/p")?;
    Ok(steps)
}

#[test]
fn a_batch_dies_once_within_one_of_its_documents(rt: HostRuntime) -> Result<(), Fail> {
    let listed = list(rt.alloc(), wrong(rt.alloc())?)?;
    assert_eq!(rt; listed.events, 3);
    assert!(rt; waits_only(&listed.standing, "/p", 1));
    Ok(())
}

fn only_death(alloc: Global) -> Result<Vec<Step>, Fail> {
    let mut steps = Vec::new(alloc);
    die(&mut steps, 1, "/p", 0)?;
    Ok(steps)
}

#[test]
fn a_death_is_told_behind_a_refusal(rt: HostRuntime) -> Result<(), Fail> {
    let alloc = rt.alloc();
    let both = play_both(alloc, 8, full_with_a_batch(alloc)?, only_death(alloc)?)?;
    assert!(rt; is_full(&both.first, 65_536, 74));
    assert!(rt; both.second.is_ok());
    assert_eq!(rt; both.events, 4);
    Ok(())
}
