//! Starts of the daemon that fail, of which the eighth in a row gives it up.

use crate::standings::play;
use crate::steps::{ask_spaces, fail_start, start};
use ci_core::CoreFault;
use ci_play::Step;
use std::alloc::Global;
use std::test::Fail;

fn add_failures(steps: &mut Vec<Step>, count: usize) -> Result<(), Fail> {
    for _ in 0..count {
        fail_start(steps)?;
    }
    Ok(())
}

fn failures(alloc: Global, count: usize) -> Result<Vec<Step>, Fail> {
    let mut steps = Vec::new(alloc);
    add_failures(&mut steps, count)?;
    Ok(steps)
}

fn failures_with_a_start_between(alloc: Global) -> Result<Vec<Step>, Fail> {
    let mut steps = failures(alloc, 7)?;
    start(&mut steps)?;
    add_failures(&mut steps, 7)?;
    Ok(steps)
}

// A request of so many bytes comes first.
fn failures_behind(alloc: Global, count: usize) -> Result<Vec<Step>, Fail> {
    let mut steps = Vec::new(alloc);
    ask_spaces(&mut steps, count)?;
    add_failures(&mut steps, 8)?;
    Ok(steps)
}

#[test]
fn seven_failures_are_seven_events(rt: HostRuntime) -> Result<(), Fail> {
    let left = play(rt.alloc(), 8, failures(rt.alloc(), 7)?)?;
    assert!(rt; left.ended.is_ok());
    assert_eq!(rt; left.events, 7);
    Ok(())
}

#[test]
fn the_eighth_failure_has_two_events(rt: HostRuntime) -> Result<(), Fail> {
    let left = play(rt.alloc(), 8, failures(rt.alloc(), 8)?)?;
    assert!(rt; left.ended.is_ok());
    assert_eq!(rt; left.events, 9);
    Ok(())
}

#[test]
fn a_start_begins_the_count_anew(rt: HostRuntime) -> Result<(), Fail> {
    let left = play(rt.alloc(), 8, failures_with_a_start_between(rt.alloc())?)?;
    assert!(rt; left.ended.is_ok());
    assert_eq!(rt; left.events, 15);
    Ok(())
}

// Of 65,536 bytes the request takes 64,960, and seven failures 448: both events of the eighth fit.
#[test]
fn both_events_of_a_step_fit(rt: HostRuntime) -> Result<(), Fail> {
    let left = play(rt.alloc(), 8, failures_behind(rt.alloc(), 64_888)?)?;
    assert!(rt; left.ended.is_ok());
    assert_eq!(rt; left.events, 10);
    Ok(())
}

// With a byte more there is room for the first of them alone, so none is added.
#[test]
fn neither_event_of_a_step_fits_alone(rt: HostRuntime) -> Result<(), Fail> {
    let left = play(rt.alloc(), 8, failures_behind(rt.alloc(), 64_889)?)?;
    assert!(rt; is_full(&left.ended, 65_409, 128));
    assert_eq!(rt; left.events, 8);
    Ok(())
}

pub(crate) fn is_full(ended: &Result<(), CoreFault>, bytes: u64, wanted: u64) -> bool {
    match ended {
        Err(CoreFault::JournalFull { used, more }) => *used == bytes && *more == wanted,
        _ => false,
    }
}
