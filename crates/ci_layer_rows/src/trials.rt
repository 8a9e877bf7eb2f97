//! Notices that were tried in vain: which are tried again, and which are set aside.

ghost use Rattle.std.specs.Prelude.{◌≡◌};

use crate::notices::{noted, path};
use crate::table::{Table, all_hold};
use ci_base::{PathText, Seq};
use ci_change::{ChangeList, What};
use std::alloc::Global;
use std::test::Fail;

// Two paths, of which the first was noted again. A document is to be tried so often.
fn noted_again(alloc: Global, retries: u32) -> Result<ChangeList, Fail> {
    let (a, b) = (path(alloc, "/a")?, path(alloc, "/b")?);
    let list = noted(ChangeList::new(alloc, retries), &a, 1, What::Changed)?;
    let list = noted(list, &b, 2, What::Changed)?;
    noted(list, &a, 4, What::Changed)
}

// The attempts of the path and whether it is unfiltered, how many paths are free, the pending ones,
// and the unfiltered ones.
fn standing(alloc: Global, list: &ChangeList, path: &PathText) -> Result<String, Fail> {
    let mut told = format!(in alloc; "{} ", list.attempts_of(path))?;
    if list.unfiltered_of(path) {
        told.push_str("unfiltered ")?;
    }
    write!(told, "{}|", list.free())?;
    for notice in list.pending()? {
        write!(told, "{},", notice.path.as_str())?;
    }
    told.push('|')?;
    for path in list.unfiltered()? {
        write!(told, "{},", path.as_str())?;
    }
    Ok(told)
}

// Rows of how often a document is to be tried, and what became of the first path: `f` failed, `r`
// refused and `s` served, each with a number and, behind a star, how often.
struct Trials;

impl Table for Trials {
    fn told(alloc: Global, given: &str) -> Result<String, Fail> {
        let (retries, trials) = given.split_once(';').ok_or("retries")?;
        let mut list = noted_again(alloc, retries.parse::<u32>().ok().ok_or("a number")?)?;
        let path = path(alloc, "/a")?;
        for trial in trials.split_whitespace() {
            try_often(&mut list, &path, trial)?;
        }
        standing(alloc, &list, &path)
    }
}

fn try_often(list: &mut ChangeList, path: &PathText, trial: &str) -> Result<(), Fail> {
    let (trial, times) = trial.split_once('*').unwrap_or((trial, "1"));
    for _ in 0..times.parse::<u32>().ok().ok_or("a count")? {
        try_once(list, path, trial)?;
    }
    Ok(())
}

fn try_once(list: &mut ChangeList, path: &PathText, trial: &str) -> Result<(), Fail> {
    if let Some(number) = trial.strip_prefix("f") {
        list.charge(path, seq(number)?);
    } else if let Some(number) = trial.strip_prefix("r") {
        list.refuse(path, seq(number)?);
    } else if let Some(number) = trial.strip_prefix("s") {
        list.served(path, seq(number)?)?;
    } else {
        return Err("a trial".into());
    }
    Ok(())
}

fn seq(number: &str) -> Result<Seq, Fail> {
    Ok(Seq(number.parse::<u64>().ok().ok_or("a number")?))
}

#[test]
fn a_notice_is_set_aside_behind_its_attempts_or_a_refusal(rt: HostRuntime) -> Result<(), Fail> {
    // below the attempts, at them, and beyond; a refusal alone, before an attempt and behind some;
    // what is served is neither pending nor set aside
    const ROWS: &str = "\
4; => 0 2|/a,/b,|
4; f4*3 => 3 2|/a,/b,|
4; f4*4 => 4 unfiltered 1|/b,|/a,
4; f4*9 => 9 unfiltered 1|/b,|/a,
4; r4 => 0 unfiltered 1|/b,|/a,
4; f4 r4 => 1 unfiltered 1|/b,|/a,
4; r4 f4 => 1 unfiltered 1|/b,|/a,
4; f4*4 r4 => 4 unfiltered 1|/b,|/a,
4; r4 s4 => 0 1|/b,|
4; f4*4 s4 => 4 1|/b,|
0; => 0 unfiltered 0||/a,/b,
1; f4 => 1 unfiltered 1|/b,|/a,
1; r4 => 0 unfiltered 1|/b,|/a,
100; f4*99 => 99 2|/a,/b,|
100; f4*100 => 100 unfiltered 1|/b,|/a,
100; f4*50 r4 => 50 unfiltered 1|/b,|/a,";
    all_hold::<Trials>(rt.alloc(), ROWS)
}

#[test]
fn what_is_told_of_another_notice_says_nothing(rt: HostRuntime) -> Result<(), Fail> {
    // an older notice, one that comes later, and no notice
    const ROWS: &str = "\
4; f1*4 => 0 2|/a,/b,|
4; r1 => 0 2|/a,/b,|
4; f5*4 => 0 2|/a,/b,|
4; r5 => 0 2|/a,/b,|
4; f0*4 r0 => 0 2|/a,/b,|";
    all_hold::<Trials>(rt.alloc(), ROWS)
}

fn tried_in_vain(list: ChangeList, path: &PathText) -> ChangeList
    ensures { result.notices ≡ list.notices }
{
    let mut list = list;
    list.charge(path, Seq(1));
    list.refuse(path, Seq(1));
    list
}

// What stands behind a new notice of a path that failed and was refused.
fn noted_behind(alloc: Global) -> Result<String, Fail> {
    let path = path(alloc, "/a")?;
    let list = noted(ChangeList::new(alloc, 4), &path, 1, What::Changed)?;
    let list = noted(tried_in_vain(list, &path), &path, 2, What::Changed)?;
    standing(alloc, &list, &path)
}

#[test]
fn a_new_notice_begins_anew(rt: HostRuntime) -> Result<(), Fail> {
    assert_eq!(rt; noted_behind(rt.alloc())?.as_str(), "0 1|/a,|");
    Ok(())
}
