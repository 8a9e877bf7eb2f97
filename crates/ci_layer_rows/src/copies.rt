//! Copies of numbers of paths, and of a change list: each goes on by itself.

use crate::notices::{noted, path};
use ci_base::{DocNo, PathText, Seq};
use ci_change::{Batch, ChangeList, What};
use ci_paths::Numbers;
use std::alloc::Global;
use std::test::Fail;

// The numbers of some paths, each with a bar behind it.
fn shown(alloc: Global, numbers: &Numbers) -> Result<String, Fail> {
    let mut told = String::new(alloc);
    for text in "/a /b /c /d /e".split(' ') {
        let number = numbers.find(&path(alloc, text)?).map(|doc| doc.0);
        write!(told, "{number:?}|")?;
    }
    Ok(told)
}

// Three paths, of which the first was taken over.
fn some_numbers(alloc: Global) -> Result<Numbers, Fail> {
    let mut numbers = Numbers::new(alloc, 4);
    adopt(alloc, &mut numbers)?;
    number_two(alloc, &mut numbers)?;
    Ok(numbers)
}

fn adopt(alloc: Global, numbers: &mut Numbers) -> Result<(), Fail> {
    let path = path(alloc, "/c")?;
    match numbers.adopt(DocNo(2), &path) {
        Ok(()) => Ok(()),
        Err(_) => Err("a free number".into()),
    }
}

fn number_two(alloc: Global, numbers: &mut Numbers) -> Result<(), Fail> {
    number(alloc, numbers, "/b")?;
    number(alloc, numbers, "/a")
}

fn number(alloc: Global, numbers: &mut Numbers, name: &str) -> Result<(), Fail> {
    let path = path(alloc, name)?;
    match numbers.number(&path) {
        Ok(_) => Ok(()),
        Err(_) => Err("a number".into()),
    }
}

// The numbers behind one more path, in the list itself or in its copy; and those of the other.
fn shown_both(alloc: Global, copies: bool) -> Result<String, Fail> {
    let mut numbers = some_numbers(alloc)?;
    let mut copy = numbers.copy(alloc)?;
    if copies {
        number(alloc, &mut copy, "/d")?;
    } else {
        number(alloc, &mut numbers, "/d")?;
    }
    both(alloc, &numbers, &copy)
}

fn both(alloc: Global, one: &Numbers, other: &Numbers) -> Result<String, Fail> {
    let (one, other) = (shown(alloc, one)?, shown(alloc, other)?);
    Ok(format!(in alloc; "{} {}", one.as_str(), other.as_str())?)
}

#[test]
fn copied_numbers_go_on_by_themselves(rt: HostRuntime) -> Result<(), Fail> {
    let wanted = "Some(1)|Some(0)|Some(2)|None|None| Some(1)|Some(0)|Some(2)|Some(3)|None|";
    assert_eq!(rt; shown_both(rt.alloc(), true)?.as_str(), wanted);
    let wanted = "Some(1)|Some(0)|Some(2)|Some(3)|None| Some(1)|Some(0)|Some(2)|None|None|";
    assert_eq!(rt; shown_both(rt.alloc(), false)?.as_str(), wanted);
    Ok(())
}

// The pending notices, by path, and the next batch of at most two.
fn pending(told: &mut String, list: &mut ChangeList, batch: u64) -> Result<(), Fail> {
    for notice in list.pending()? {
        write!(told, "{} {} ", notice.path.as_str(), notice.seq.0)?;
    }
    told.push_str("out")?;
    out(told, &list.take_batch(batch, 2)?)
}

fn out(told: &mut String, batch: &Batch) -> Result<(), Fail> {
    for doc in batch.docs.items() {
        write!(told, " {}", doc.0.as_str())?;
    }
    Ok(told.push('|')?)
}

// Three notices, of which one is served and one is out.
fn some_changes(alloc: Global) -> Result<ChangeList, Fail> {
    let mut list = three_changes(alloc)?;
    serve(&mut list, &path(alloc, "/a")?, 2)?;
    begin(&mut list)?;
    Ok(list)
}

fn three_changes(alloc: Global) -> Result<ChangeList, Fail> {
    let (a, c, d) = (path(alloc, "/a")?, path(alloc, "/c")?, path(alloc, "/d")?);
    let list = noted(ChangeList::new(alloc, 4), &c, 1, What::Changed)?;
    let list = noted(list, &a, 2, What::Changed)?;
    noted(list, &d, 3, What::Changed)
}

fn serve(list: &mut ChangeList, path: &PathText, seq: u64) -> Result<(), Fail> {
    Ok(list.served(path, Seq(seq))?)
}

fn begin(list: &mut ChangeList) -> Result<(), Fail> {
    let _first = list.take_batch(1, 1)?;
    Ok(())
}

// A copy of the list, in which one path more is served.
fn copied(alloc: Global, list: &ChangeList) -> Result<ChangeList, Fail> {
    let mut copy = list.copy(alloc)?;
    serve(&mut copy, &path(alloc, "/c")?, 1)?;
    Ok(copy)
}

// What is pending in a list, and then in its copy.
fn changed(alloc: Global) -> Result<String, Fail> {
    let mut told = String::new(alloc);
    tell_both(alloc, &mut told)?;
    Ok(told)
}

fn tell_both(alloc: Global, told: &mut String) -> Result<(), Fail> {
    let mut list = some_changes(alloc)?;
    let mut copy = copied(alloc, &list)?;
    pending(told, &mut list, 2)?;
    pending(told, &mut copy, 2)
}

#[test]
fn a_copied_change_list_goes_on_by_itself(rt: HostRuntime) -> Result<(), Fail> {
    assert_eq!(rt;
        changed(rt.alloc())?.as_str(),
        "/c 1 /d 3 out /d|/d 3 out /d|"
    );
    Ok(())
}
