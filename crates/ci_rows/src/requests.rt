//! Requests of lines, and their copies.

use crate::table::{Table, unmet};
use ci_base::Text8;
use ci_io::{LINE_BYTES, Line};
use ci_journal::Request;
use std::alloc::Global;
use std::test::Fail;

// The request of a line, as its copy has it.
fn request(alloc: Global, line: &str) -> Result<Request, Fail> {
    if line.len() > LINE_BYTES {
        return Err(Fail::new("too long a line"));
    }
    let request = Request::read(alloc, &Line::Text(Text8::of(alloc, line.as_bytes())?))?;
    let copy = request.copy(alloc)?;
    if copy == request {
        Ok(copy)
    } else {
        Err("a copy equals its request".into())
    }
}

fn said(alloc: Global, word: &str, text: &str) -> Result<String, Fail> {
    Ok(format!(in alloc; "{word} '{text}'")?)
}

fn told(alloc: Global, request: &Request) -> Result<String, Fail> {
    match request {
        Request::Changed(path) => said(alloc, "changed", path.as_str()),
        Request::Deleted(path) => said(alloc, "deleted", path.as_str()),
        Request::Put { path, text } => {
            Ok(format!(in alloc; "put {} '{}'", path.as_str(), text.as_str())?)
        }
        Request::Query(text) => said(alloc, "query", text.as_str()),
        Request::Load { seed, count } => Ok(format!(in alloc; "load {seed} {count}")?),
        Request::Pending => Ok(String::from_str(alloc, "pending")?),
        Request::Bad => Ok(String::from_str(alloc, "bad")?),
        _ => Ok(String::from_str(alloc, "another")?),
    }
}

// Rows of lines: the request, its text between quotes.
struct Requests;

impl Table for Requests {
    fn told(alloc: Global, given: &str) -> Result<String, Fail> {
        told(alloc, &request(alloc, given)?)
    }
}

#[test]
fn requests_are_read(rt: HostRuntime) -> Result<(), Fail> {
    const ROWS: &str = "\
put /d/a.txt Red  fox => put /d/a.txt 'Red  fox'
query FOX => query 'FOX'
changed /a b => changed '/a b'
deleted /a => deleted '/a'
pending => pending
wait => another
load 07 65536 => load 7 65536";
    assert_eq!(rt; unmet::<Requests>(rt.alloc(), ROWS)?.as_str(), "");
    Ok(())
}

#[test]
fn other_lines_are_no_requests(rt: HostRuntime) -> Result<(), Fail> {
    // an empty line, a word without what belongs to it, with more, in capitals or behind a blank
    const ROWS: &str = "\
\x20=> bad
put => bad
put /d/a.txt => bad
Put /d/a.txt x => bad
 query x => bad
query => bad
load 7 => bad
load 7 65537 => bad
filter now => bad
changed => bad
deleted a => bad
wait now => bad";
    assert_eq!(rt; unmet::<Requests>(rt.alloc(), ROWS)?.as_str(), "");
    Ok(())
}
