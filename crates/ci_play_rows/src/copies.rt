//! Copies of steps, of a journal and of a question: each is as what it was made of.

use crate::answers::asked_and_deleted;
use crate::standings::{count_hits, play};
use crate::steps::{ask, note, put};
use ci_journal::What;
use ci_play::Step;
use std::alloc::Global;
use std::test::Fail;

fn copied(alloc: Global, steps: &[Step]) -> Result<Vec<Step>, Fail> {
    let mut copied = Vec::new(alloc);
    for step in steps {
        copied.push(step.copy(alloc)?)?;
    }
    Ok(copied)
}

#[test]
fn copied_steps_play_as_the_steps_do(rt: HostRuntime) -> Result<(), Fail> {
    let steps = asked_and_deleted(rt.alloc())?;
    let left = play(rt.alloc(), 8, copied(rt.alloc(), steps.as_slice())?)?;
    assert!(rt; left.ended.is_ok());
    assert_eq!(rt; left.events, 7);
    assert_eq!(rt; left.copied, 7);
    Ok(())
}

fn put_and_asked(alloc: Global) -> Result<Vec<Step>, Fail> {
    let mut steps = Vec::new(alloc);
    note(&mut steps, "/p", What::Changed)?;
    put(&mut steps, "/p", 1, "red fox")?;
    ask(&mut steps, "fox")?;
    Ok(steps)
}

#[test]
fn a_copied_question_has_the_same_hits(rt: HostRuntime) -> Result<(), Fail> {
    let steps = put_and_asked(rt.alloc())?;
    assert_eq!(rt; count_hits(rt.alloc(), steps)?, (1, 1));
    Ok(())
}
