//! Changes and deletions that overtake a batch.

use crate::standings::{holds_only, is_empty, list, waits_only};
use crate::steps::{begin, erase, finish, note};
use ci_journal::What;
use ci_play::Step;
use std::alloc::Global;
use std::test::Fail;

fn changed_behind_a_batch(alloc: Global) -> Result<Vec<Step>, Fail> {
    let mut steps = Vec::new(alloc);
    note(&mut steps, "/p", What::Changed)?;
    begin(&mut steps, 8)?;
    note(&mut steps, "/p", What::Changed)?;
    finish(&mut steps, "/p")?;
    Ok(steps)
}

#[test]
fn a_change_behind_a_batch_stays_pending(rt: HostRuntime) -> Result<(), Fail> {
    let listed = list(rt.alloc(), changed_behind_a_batch(rt.alloc())?)?;
    assert!(rt; holds_only(&listed.standing, "/p"));
    assert!(rt; waits_only(&listed.standing, "/p", 2));
    assert_eq!(rt; listed.events, 4);
    Ok(())
}

fn deleted_behind_a_batch(alloc: Global) -> Result<Vec<Step>, Fail> {
    let mut steps = Vec::new(alloc);
    note(&mut steps, "/p", What::Changed)?;
    begin(&mut steps, 8)?;
    note(&mut steps, "/p", What::Deleted)?;
    erase(&mut steps, "/p")?;
    finish(&mut steps, "/p")?;
    Ok(steps)
}

#[test]
fn an_outcome_older_than_a_deletion_counts_no_more(rt: HostRuntime) -> Result<(), Fail> {
    let listed = list(rt.alloc(), deleted_behind_a_batch(rt.alloc())?)?;
    assert!(rt; is_empty(&listed.standing));
    assert_eq!(rt; listed.events, 5);
    Ok(())
}
