//! Batches that are given back, also behind a refusal and past the journal's bound.

use crate::standings::{list, play_both, waits_only};
use crate::starts::is_full;
use crate::steps::{begin, finish, full_with_a_batch, give_back, note};
use ci_journal::What;
use ci_play::Step;
use std::alloc::Global;
use std::test::Fail;

fn given_back(alloc: Global) -> Result<Vec<Step>, Fail> {
    let mut steps = Vec::new(alloc);
    note(&mut steps, "/p", What::Changed)?;
    begin(&mut steps, 8)?;
    give_back(&mut steps, "/p")?;
    give_back(&mut steps, "/p")?;
    finish(&mut steps, "/p")?;
    Ok(steps)
}

#[test]
fn a_batch_is_given_back_once(rt: HostRuntime) -> Result<(), Fail> {
    let listed = list(rt.alloc(), given_back(rt.alloc())?)?;
    assert_eq!(rt; listed.events, 3);
    assert!(rt; waits_only(&listed.standing, "/p", 1));
    assert!(rt; listed.standing.paths.items().is_empty());
    Ok(())
}

fn only_given_back(alloc: Global) -> Result<Vec<Step>, Fail> {
    let mut steps = Vec::new(alloc);
    give_back(&mut steps, "/p")?;
    Ok(steps)
}

#[test]
fn a_batch_is_given_back_behind_a_refusal(rt: HostRuntime) -> Result<(), Fail> {
    let alloc = rt.alloc();
    let both = play_both(alloc, 8, full_with_a_batch(alloc)?, only_given_back(alloc)?)?;
    assert!(rt; is_full(&both.first, 65_536, 74));
    assert!(rt; both.second.is_ok());
    assert_eq!(rt; both.events, 4);
    Ok(())
}
