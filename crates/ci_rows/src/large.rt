//! Sessions of many lines: a server that wants memory early passes none of these.

use crate::sessions::session;
use std::alloc::Global;
use std::test::Fail;

// The paths of so many documents, in byte order.
fn document(text: &mut String, number: usize) -> Result<(), Fail> {
    Ok(write!(text, "/d/{:05}", number)?)
}

// So many puts of the word, each with one of its own, and a query for the word.
fn puts(alloc: Global, count: usize) -> Result<String, Fail> {
    let mut lines = String::new(alloc);
    for number in 0..count {
        lines.push_str("put ")?;
        document(&mut lines, number)?;
        write!(lines, " fox own{number}|")?;
    }
    lines.push_str("query fox|query own7")?;
    Ok(lines)
}

// What such a session prints.
fn replies(alloc: Global, count: usize) -> Result<String, Fail> {
    let mut told = format!(in alloc; "Done {}: ", count.saturating_mul(4).saturating_add(6))?;
    for number in 0..count {
        write!(told, "{} ok|", number.saturating_add(1))?;
    }
    let place = count.saturating_mul(4).saturating_add(2);
    write!(told, "{} hits {count} at {place}|", count.saturating_add(1))?;
    for number in 0..count {
        document(&mut told, number)?;
        told.push('|')?;
    }
    let place = place.saturating_add(3);
    write!(told, "{} hits 1 at {place}|", count.saturating_add(2))?;
    document(&mut told, 7)?;
    told.push('|')?;
    Ok(told)
}

#[test]
fn three_hundred_documents_are_hits(rt: HostRuntime) -> Result<(), Fail> {
    let lines = puts(rt.alloc(), 300)?;
    let wanted = replies(rt.alloc(), 300)?;
    assert_eq!(rt;
        session(rt.alloc(), lines.as_str())?.as_str(),
        wanted.as_str()
    );
    Ok(())
}

// A document of so many distinct words, and a query for the last of them.
fn words(alloc: Global, count: usize) -> Result<String, Fail> {
    let mut lines = String::from_str(alloc, "put /a")?;
    for number in 0..count {
        write!(lines, " w{number}")?;
    }
    write!(lines, "|query w{}", count.saturating_sub(1))?;
    Ok(lines)
}

#[test]
fn a_long_text_is_indexed_whole(rt: HostRuntime) -> Result<(), Fail> {
    let lines = words(rt.alloc(), 10_500)?;
    assert!(rt; lines.len() > 60_000);
    let told = session(rt.alloc(), lines.as_str())?;
    assert_eq!(rt; told.as_str(), "Done 7: 1 ok|2 hits 1 at 6|/a|");
    Ok(())
}

// So many lines that nothing is known of, of different lengths.
fn lines(alloc: Global, count: usize) -> Result<String, Fail> {
    let mut lines = String::new(alloc);
    for number in 0..count {
        for _ in 0..number % 100 {
            lines.push('x')?;
        }
        lines.push('|')?;
    }
    lines.push_str("wait")?;
    Ok(lines)
}

#[test]
fn two_thousand_lines_are_answered(rt: HostRuntime) -> Result<(), Fail> {
    let lines = lines(rt.alloc(), 2_000)?;
    let told = session(rt.alloc(), lines.as_str())?;
    assert!(rt; told.as_str().starts_with("Done 4002: 1 bad|2 bad|"));
    assert!(rt; told.as_str().ends_with("|2000 bad|2001 done|"));
    Ok(())
}
