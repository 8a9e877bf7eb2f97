//! Files that fail, and calls out of turn.

use crate::files::{failing_file, one_file};
use crate::said::{name_of, said};
use ci_base::PathText;
use ci_chunk::{Filter, FilterStop, Status};
use ci_filters::{FormatFilter, Plain};
use std::alloc::Global;
use std::test::Fail;

const MAX: u32 = 65_536;

// What is said of one document three times, where the read of this number fails.
fn three_times(alloc: Global, fails: u64) -> Result<String, Fail> {
    let files = failing_file(alloc, "/a.txt", b"x", fails)?;
    said_thrice(alloc, &mut FormatFilter::new(files, Plain))
}

fn said_thrice<T: Filter>(alloc: Global, filter: &mut T) -> Result<String, Fail> {
    let mut told = String::new(alloc);
    for _ in 0..3 {
        tell_once(alloc, &mut told, filter)?;
    }
    Ok(told)
}

fn tell_once<T: Filter>(alloc: Global, told: &mut String, filter: &mut T) -> Result<(), Fail> {
    let words = said(alloc, filter, "/a.txt", MAX)?;
    Ok(write!(told, "{}; ", words.as_str())?)
}

// What is said of a file that isn't there.
fn of_no_file(alloc: Global) -> Result<String, Fail> {
    let files = failing_file(alloc, "/a.txt", b"x", 9)?;
    said(alloc, &mut FormatFilter::new(files, Plain), "/b.txt", MAX)
}

// The answers to the three calls of a chunk.
fn tell_answers<T: Filter>(alloc: Global, told: &mut String, filter: &mut T) -> Result<(), Fail> {
    let text = text_answer(alloc, filter);
    let value = value_answer(alloc, filter);
    let chunk = chunk_answer(alloc, filter);
    Ok(write!(told, "{text} {value} {chunk}; ")?)
}

fn text_answer<T: Filter>(alloc: Global, filter: &mut T) -> &'static str {
    match filter.get_text(alloc, MAX) {
        Ok((status, _)) => name_of(status),
        Err(stop) => name_of_stop(stop),
    }
}

fn value_answer<T: Filter>(alloc: Global, filter: &mut T) -> &'static str {
    match filter.get_value(alloc) {
        Ok((status, _)) => name_of(status),
        Err(stop) => name_of_stop(stop),
    }
}

fn chunk_answer<T: Filter>(alloc: Global, filter: &mut T) -> &'static str {
    match filter.get_chunk(alloc) {
        Ok(_) => "chunk",
        Err(stop) => name_of_stop(stop),
    }
}

fn name_of_stop(stop: FilterStop) -> &'static str {
    match stop {
        FilterStop::Status(status) => name_of(status),
        FilterStop::OutOfMemory => "want of memory",
    }
}

// The answers with no document, before the first chunk, and in each chunk.
fn out_of_turn(alloc: Global) -> Result<String, Fail> {
    let files = one_file(alloc, "/a.txt", b"x")?;
    all_answers(alloc, &mut FormatFilter::new(files, Plain))
}

fn all_answers<T: Filter>(alloc: Global, filter: &mut T) -> Result<String, Fail> {
    let mut told = String::new(alloc);
    tell_answers(alloc, &mut told, filter)?;
    tell_opened(alloc, &mut told, filter)?;
    Ok(told)
}

fn tell_opened<T: Filter>(alloc: Global, told: &mut String, filter: &mut T) -> Result<(), Fail> {
    opened(alloc, filter)?;
    for _ in 0..5 {
        tell_answers(alloc, told, filter)?;
    }
    Ok(())
}

fn opened<T: Filter>(alloc: Global, filter: &mut T) -> Result<(), Fail> {
    let path = PathText::read(alloc, b"/a.txt")?;
    if filter.init(alloc, 80, &path)? == Status::S_OK {
        Ok(())
    } else {
        Err("a document".into())
    }
}

#[test]
fn a_failing_read_is_no_access(rt: HostRuntime) -> Result<(), Fail> {
    let wanted = "\
ok | 1:2 'a.txt' ok no_more_values | 2:3 int 1 ok no_more_values | 3:1 'x' last no_more_text end; \
access; \
ok | 1:2 'a.txt' ok no_more_values | 2:3 int 1 ok no_more_values | 3:1 'x' last no_more_text end; ";
    assert_eq!(rt; three_times(rt.alloc(), 1)?.as_str(), wanted);
    assert_eq!(rt; of_no_file(rt.alloc())?.as_str(), "access");
    Ok(())
}

#[test]
fn calls_out_of_turn(rt: HostRuntime) -> Result<(), Fail> {
    let wanted = "\
end end end; \
no_text no_values chunk; \
no_text ok chunk; \
no_text ok chunk; \
last no_values end; \
no_more_text no_values end; ";
    assert_eq!(rt; out_of_turn(rt.alloc())?.as_str(), wanted);
    Ok(())
}
