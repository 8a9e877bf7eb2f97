//! Prefixes that hold paths, and the numbers of paths.

use crate::table::{Table, all_hold};
use ci_base::{DocNo, PathText};
use ci_paths::{Numbers, Prefix};
use std::alloc::Global;
use std::test::Fail;

fn path(alloc: Global, text: &str) -> Result<PathText, Fail> {
    Ok(PathText::read(alloc, text.as_bytes())?)
}

// Rows of a prefix and a path: whether the copy of the prefix holds the path.
struct Holds;

impl Table for Holds {
    fn told(alloc: Global, given: &str) -> Result<String, Fail> {
        let (prefix, held) = given.split_once("; ").ok_or("a path")?;
        let Ok(prefix) = Prefix::read(alloc, prefix) else {
            return Ok(String::from_str(alloc, "no prefix")?);
        };
        let holds = prefix.copy(alloc)?.holds(&path(alloc, held)?);
        Ok(format!(in alloc; "{holds}")?)
    }
}

#[test]
fn prefixes_hold_what_stands_under_them(rt: HostRuntime) -> Result<(), Fail> {
    const ROWS: &str = "\
/; /d => true
/; /d/a.txt => true
/d; /d => true
/d; /d/a.txt => true
/d/a.txt; /d/a.txt => true
/d; /data/a.txt => false
/d/a.txt; /d => false
/d; /e/d => false
/d; /D => false
; /d => no prefix
d; /d => no prefix
//; /d => no prefix
/d/; /d => no prefix
/d/../e; /d => no prefix
/.; /d => no prefix";
    all_hold::<Holds>(rt.alloc(), ROWS)
}

// A number is taken over, where one is given, and else asked for.
fn give(numbers: &mut Numbers, doc: Option<u32>, path: &PathText) -> Option<u32> {
    match doc {
        Some(doc) if doc < 262_144 => numbers.adopt(DocNo(doc), path).ok().map(|_| doc),
        Some(_) => None,
        None => numbers.number(path).ok().map(|given| given.0),
    }
}

// Rows of a limit and of paths, each perhaps behind a number that is taken over: the numbers that
// they get, `-` where one is refused; then how many paths have one, and what has the number 2.
struct Given;

impl Table for Given {
    fn told(alloc: Global, given: &str) -> Result<String, Fail> {
        let (limit, paths) = given.split_once(": ").ok_or("a limit")?;
        give_all(alloc, limit.parse::<u32>().ok().ok_or("a number")?, paths)
    }
}

fn give_all(alloc: Global, limit: u32, paths: &str) -> Result<String, Fail> {
    let mut numbers = Numbers::new(alloc, limit);
    let mut told = String::new(alloc);
    tell_all(alloc, &mut told, &mut numbers, paths)?;
    tell_numbers(alloc, &mut told, &numbers)?;
    Ok(told)
}

fn tell_all(
    alloc: Global,
    told: &mut String,
    numbers: &mut Numbers,
    paths: &str,
) -> Result<(), Fail> {
    for text in paths.split(' ') {
        tell_given(alloc, told, numbers, text)?;
    }
    Ok(())
}

fn tell_given(
    alloc: Global,
    told: &mut String,
    numbers: &mut Numbers,
    text: &str,
) -> Result<(), Fail> {
    let (doc, text) = text.split_once('=').unwrap_or(("", text));
    match give(numbers, doc.parse::<u32>().ok(), &path(alloc, text)?) {
        Some(number) => write!(told, "{number} ")?,
        None => told.push_str("- ")?,
    }
    Ok(())
}

fn tell_numbers(alloc: Global, told: &mut String, numbers: &Numbers) -> Result<(), Fail> {
    let second = numbers.path(DocNo(2)).map_or("none", |kept| kept.as_str());
    let third = numbers.find(&path(alloc, "/c")?).map(|doc| doc.0);
    write!(told, "{} {third:?} {second}", numbers.len())?;
    Ok(())
}

#[test]
fn paths_get_numbers(rt: HostRuntime) -> Result<(), Fail> {
    // new paths fill the gaps, a limit stops new paths alone, and what is taken clashes
    const ROWS: &str = "\
10: 1=/b 3=/e /a /c /d /a /b /e => 1 3 0 2 4 0 1 3 5 Some(2) /c
2: /a /b /c /a => 0 1 - 0 2 None none
0: 262143=/a 0=/b 0=/b 0=/a 1=/b 0=/c 1=/c => 262143 0 0 - - - 1 3 Some(1) none";
    all_hold::<Given>(rt.alloc(), ROWS)
}

// What two paths get where there may be one, then three, and then none.
fn limited(alloc: Global) -> Result<String, Fail> {
    let mut numbers = Numbers::new(alloc, 1);
    let mut told = String::new(alloc);
    for limit in [1, 3, 0] {
        numbers.limit_to(limit);
        tell_two(alloc, &mut told, &mut numbers)?;
    }
    Ok(told)
}

fn tell_two(alloc: Global, told: &mut String, numbers: &mut Numbers) -> Result<(), Fail> {
    let one = give(numbers, None, &path(alloc, "/a")?);
    let other = give(numbers, None, &path(alloc, "/b")?);
    Ok(write!(told, "{one:?} {other:?} ")?)
}

#[test]
fn a_new_limit_is_for_new_paths(rt: HostRuntime) -> Result<(), Fail> {
    let wanted = "Some(0) None Some(0) Some(1) Some(0) Some(1) ";
    assert_eq!(rt; limited(rt.alloc())?.as_str(), wanted);
    Ok(())
}
