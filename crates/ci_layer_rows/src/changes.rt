//! What is pending, in order, and what is out in a batch.

ghost use Rattle.std.specs.Prelude.{◌<◌, All, IfOk, OnOk};

use crate::notices::{noted, path};
use crate::table::{Table, all_hold};
use ci_base::{PathText, Seq};
use ci_change::{Batch, ChangeList, Docs, What};
use std::alloc::Global;
use std::test::Fail;

// Three paths, of which the first was noted again and the second deleted.
fn three(alloc: Global) -> Result<ChangeList, Fail>
    ensures { IfOk result (λ list. All (λ n. n.seq.0 < 5) list.notices) }
{
    let (a, b, c) = (
        path(alloc, "/d/a.txt")?,
        path(alloc, "/d/b.txt")?,
        path(alloc, "/c.txt")?,
    );
    let list = noted(ChangeList::new(alloc, 4), &a, 1, What::Changed)?;
    let list = noted(list, &b, 2, What::Deleted)?;
    let list = noted(list, &c, 3, What::Changed)?;
    noted(list, &a, 4, What::Changed)
}

// The pending notices, each with its number.
fn pending(told: &mut String, list: &ChangeList) -> Result<(), Fail> {
    for notice in list.pending()? {
        let sign = if notice.what == What::Deleted {
            "-"
        } else {
            "+"
        };
        write!(told, "{sign}{} {}|", notice.path.as_str(), notice.seq.0)?;
    }
    Ok(())
}

// Rows of paths and of the numbers that each was served under: the last served number, and what is
// pending behind them.
struct Served;

impl Table for Served {
    fn told(alloc: Global, given: &str) -> Result<String, Fail> {
        let mut list = three(alloc)?;
        let mut told = String::new(alloc);
        serve_all(alloc, &mut told, &mut list, given)?;
        Ok(told)
    }
}

fn serve_all(
    alloc: Global,
    told: &mut String,
    list: &mut ChangeList,
    given: &str,
) -> Result<(), Fail> {
    for row in given.split(';') {
        let (name, seq) = row.split_once(' ').ok_or("a path")?;
        serve(alloc, told, list, name, seq.parse().ok().ok_or("a number")?)?;
    }
    pending(told, list)
}

fn serve(
    alloc: Global,
    told: &mut String,
    list: &mut ChangeList,
    name: &str,
    seq: u64,
) -> Result<(), Fail> {
    let path = path(alloc, name)?;
    list.served(&path, Seq(seq))?;
    Ok(write!(told, "{} ", list.served_of(&path).0)?)
}

#[test]
fn the_latest_notices_are_pending_by_path(rt: HostRuntime) -> Result<(), Fail> {
    // a served path is pending no more, its number only rises, and a path without notices is served
    const ROWS: &str = "\
/e 0 => 0 +/c.txt 3|+/d/a.txt 4|-/d/b.txt 2|
/d/a.txt 3 => 3 +/c.txt 3|+/d/a.txt 4|-/d/b.txt 2|
/d/a.txt 4 => 4 +/c.txt 3|-/d/b.txt 2|
/d/a.txt 4;/d/a.txt 2 => 4 4 +/c.txt 3|-/d/b.txt 2|
/d/a.txt 4;/d/a.txt 2;/d/a.txt 9 => 4 4 9 +/c.txt 3|-/d/b.txt 2|
/e 6 => 6 +/c.txt 3|+/d/a.txt 4|-/d/b.txt 2|";
    all_hold::<Served>(rt.alloc(), ROWS)
}

// What is pending where a path was served under 9 and then noted with the number 5.
fn noted_late(alloc: Global) -> Result<String, Fail> {
    let path = path(alloc, "/d/a.txt")?;
    let mut list = three(alloc)?;
    serve_under(&mut list, &path, 9)?;
    pending_of(alloc, &noted(list, &path, 5, What::Changed)?)
}

fn pending_of(alloc: Global, list: &ChangeList) -> Result<String, Fail> {
    let mut told = String::new(alloc);
    pending(&mut told, list)?;
    Ok(told)
}

fn serve_under(list: &mut ChangeList, path: &PathText, seq: u64) -> Result<(), Fail>
    requires { All (λ n. n.seq.0 < 5) list.old.notices }
    ensures { OnOk result (All (λ n. n.seq.0 < 5) list.new.notices) }
{
    Ok(list.served(path, Seq(seq))?)
}

#[test]
fn a_notice_below_a_served_number_is_not_pending(rt: HostRuntime) -> Result<(), Fail> {
    assert_eq!(rt; noted_late(rt.alloc())?.as_str(), "+/c.txt 3|-/d/b.txt 2|");
    Ok(())
}

// Rows of how many notices each batch may have at most, and where a sign is behind, is given back.
struct Taken;

impl Table for Taken {
    fn told(alloc: Global, given: &str) -> Result<String, Fail> {
        let mut list = three(alloc)?;
        let mut told = String::new(alloc);
        take_all(&mut told, &mut list, given)?;
        Ok(told)
    }
}

fn take_all(told: &mut String, list: &mut ChangeList, given: &str) -> Result<(), Fail> {
    for row in given.split(' ') {
        let most = row.trim_end_matches('!').parse::<usize>();
        take(told, list, most.ok().ok_or("a number")?, row.ends_with('!'))?;
    }
    Ok(())
}

fn take(
    told: &mut String,
    list: &mut ChangeList,
    most: usize,
    gives_back: bool,
) -> Result<(), Fail> {
    let batch = list.take_batch(7, most.max(1))?;
    tell_batch(told, &batch)?;
    if gives_back {
        list.give_back(&batch);
    }
    Ok(())
}

fn tell_batch(told: &mut String, batch: &Batch) -> Result<(), Fail> {
    write!(told, "{}:", batch.number)?;
    for doc in batch.docs.items() {
        write!(told, " {}", doc.1.0)?;
    }
    Ok(told.push('|')?)
}

#[test]
fn batches_take_the_first_free_ones(rt: HostRuntime) -> Result<(), Fail> {
    const ROWS: &str = "\
1 5 5 => 7: 3|7: 4|7:|
1! 1! => 7: 3|7: 3|
16 => 7: 3 4|";
    all_hold::<Taken>(rt.alloc(), ROWS)
}

// Two documents, from a copy, and as a `Vec`.
fn two_docs(alloc: Global) -> Result<Docs, Fail> {
    let mut docs = Docs::new(alloc);
    docs.add((path(alloc, "/b")?, Seq(2)))?;
    docs.add((path(alloc, "/a")?, Seq(1)))?;
    Ok(Docs::from(docs.copy(alloc)?.into_vec()))
}

fn two(alloc: Global) -> Result<Batch, Fail> {
    let docs = two_docs(alloc)?;
    Ok(Batch { number: 1, docs }.copy(alloc)?)
}

fn has(alloc: Global, batch: &Batch, name: &str) -> Result<bool, Fail> {
    Ok(batch.has(&path(alloc, name)?))
}

// The documents of a batch, and which of the paths it has.
fn documents(alloc: Global) -> Result<String, Fail> {
    let batch = two(alloc)?;
    let mut told = String::new(alloc);
    tell_batch(&mut told, &batch)?;
    write!(
        told,
        " {} {}",
        has(alloc, &batch, "/a")?,
        has(alloc, &batch, "/c")?
    )?;
    Ok(told)
}

#[test]
fn documents_of_a_batch_are_kept_in_order(rt: HostRuntime) -> Result<(), Fail> {
    assert_eq!(rt; documents(rt.alloc())?.as_str(), "1: 2 1| true false");
    Ok(())
}
