//! Answers at their points, steps that may not come, and the first refusal.

use crate::standings::{play, play_both};
use crate::steps::{answer, answer_none, ask, begin, erase, finish, note, open, put, say_ok};
use ci_core::CoreFault;
use ci_journal::What;
use ci_play::Step;
use std::alloc::Global;
use std::test::Fail;

// A document is put and asked for, and then deleted; answers are tried at several places.
pub(crate) fn asked_and_deleted(alloc: Global) -> Result<Vec<Step>, Fail> {
    let mut steps = Vec::new(alloc);
    note(&mut steps, "/p", What::Changed)?;
    put(&mut steps, "/p", 1, "red fox")?;
    ask(&mut steps, "fox")?;
    answer(&mut steps, 3, "/p")?;
    open(&mut steps)?;
    note(&mut steps, "/p", What::Deleted)?;
    erase(&mut steps, "/p")?;
    answer_none(&mut steps, 4)?;
    answer_none(&mut steps, 6)?;
    answer(&mut steps, 4, "/p")?;
    answer(&mut steps, 4, "/p")?;
    Ok(steps)
}

#[test]
fn an_answer_is_of_its_own_point(rt: HostRuntime) -> Result<(), Fail> {
    let left = play(rt.alloc(), 8, asked_and_deleted(rt.alloc())?)?;
    assert!(rt; left.ended.is_ok());
    assert_eq!(rt; left.events, 7);
    assert!(rt; left.replied);
    assert_eq!(rt; left.documents, 0);
    Ok(())
}

fn unasked(alloc: Global) -> Result<Vec<Step>, Fail> {
    let mut steps = Vec::new(alloc);
    put(&mut steps, "/p", 1, "red fox")?;
    erase(&mut steps, "/p")?;
    begin(&mut steps, 0)?;
    begin(&mut steps, 8)?;
    finish(&mut steps, "/p")?;
    open(&mut steps)?;
    answer_none(&mut steps, 0)?;
    say_ok(&mut steps)?;
    Ok(steps)
}

#[test]
fn what_may_not_come_is_passed_over(rt: HostRuntime) -> Result<(), Fail> {
    let left = play(rt.alloc(), 8, unasked(rt.alloc())?)?;
    assert!(rt; left.ended.is_ok());
    assert_eq!(rt; left.events, 0);
    Ok(())
}

// Two documents, where there may be one, and a step behind them.
fn crowded(alloc: Global) -> Result<Vec<Step>, Fail> {
    let mut steps = Vec::new(alloc);
    note(&mut steps, "/p", What::Changed)?;
    note(&mut steps, "/q", What::Changed)?;
    note(&mut steps, "/p", What::Deleted)?;
    Ok(steps)
}

#[test]
fn the_first_refusal_ends_it(rt: HostRuntime) -> Result<(), Fail> {
    let left = play(rt.alloc(), 1, crowded(rt.alloc())?)?;
    assert!(rt; matches!(left.ended, Err(CoreFault::TooManyDocuments)));
    assert!(rt; left.crowded);
    assert_eq!(rt; left.events, 1);
    Ok(())
}

#[test]
fn behind_a_refusal_it_has_ended(rt: HostRuntime) -> Result<(), Fail> {
    let alloc = rt.alloc();
    let both = play_both(alloc, 1, crowded(alloc)?, crowded(alloc)?)?;
    assert!(rt; matches!(both.second, Err(CoreFault::Ended)));
    assert_eq!(rt; both.events, 1);
    Ok(())
}
