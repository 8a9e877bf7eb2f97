//! What a filter says of a document, as a text.

use ci_base::{PathText, Value};
use ci_chunk::{ChunkState, Filter, FilterStop, StatChunk, Status};
use std::alloc::Global;
use std::test::Fail;

/// The most calls of one document.
const CALLS: usize = 24;

/// What is said of a document to the end of its chunks: a word for each answer.
pub fn said<T: Filter>(
    alloc: Global,
    filter: &mut T,
    path: &str,
    max: u32,
) -> Result<String, Fail> {
    let mut words = String::new(alloc);
    if say_init(alloc, filter, path, &mut words)? {
        say_chunks(alloc, filter, max, &mut words)?;
    }
    Ok(words)
}

// The answer to Init, and whether a document is open then.
fn say_init<T: Filter>(
    alloc: Global,
    filter: &mut T,
    path: &str,
    words: &mut String,
) -> Result<bool, Fail> {
    let path = PathText::read(alloc, path.as_bytes())?;
    let status = filter.init(alloc, 80, &path)?;
    words.push_str(name_of(status))?;
    Ok(status == Status::S_OK)
}

fn say_chunks<T: Filter>(
    alloc: Global,
    filter: &mut T,
    max: u32,
    words: &mut String,
) -> Result<(), Fail> {
    for _ in 0..CALLS {
        if !say_next(alloc, filter, max, words)? {
            return Ok(());
        }
    }
    Ok(())
}

// The next chunk, and whether there is one.
fn say_next<T: Filter>(
    alloc: Global,
    filter: &mut T,
    max: u32,
    words: &mut String,
) -> Result<bool, Fail> {
    match filter.get_chunk(alloc) {
        Ok(chunk) => say_chunk(alloc, filter, &chunk, max, words),
        Err(stop) => push_stop(words, stop),
    }
}

// A chunk, and what it has to its end.
fn say_chunk<T: Filter>(
    alloc: Global,
    filter: &mut T,
    chunk: &StatChunk,
    max: u32,
    words: &mut String,
) -> Result<bool, Fail> {
    push_number(words, " | ", chunk.id as u64)?;
    push_number(words, ":", chunk.property.0 as u64)?;
    match chunk.state {
        ChunkState::Text => say_texts(alloc, filter, max, words)?,
        _ => say_values(alloc, filter, words)?,
    }
    Ok(true)
}

fn say_texts<T: Filter>(
    alloc: Global,
    filter: &mut T,
    max: u32,
    words: &mut String,
) -> Result<(), Fail> {
    for _ in 0..CALLS {
        if !say_text(alloc, filter, max, words)? {
            return Ok(());
        }
    }
    Ok(())
}

fn say_text<T: Filter>(
    alloc: Global,
    filter: &mut T,
    max: u32,
    words: &mut String,
) -> Result<bool, Fail> {
    match filter.get_text(alloc, max) {
        Ok((status, text)) => push_text(words, text.as_str(), status),
        Err(stop) => push_stop(words, stop),
    }
}

fn say_values<T: Filter>(alloc: Global, filter: &mut T, words: &mut String) -> Result<(), Fail> {
    for _ in 0..CALLS {
        if !say_value(alloc, filter, words)? {
            return Ok(());
        }
    }
    Ok(())
}

fn say_value<T: Filter>(alloc: Global, filter: &mut T, words: &mut String) -> Result<bool, Fail> {
    match filter.get_value(alloc) {
        Ok((status, value)) => push_value(words, &value, status),
        Err(stop) => push_stop(words, stop),
    }
}

fn push_value(words: &mut String, value: &Value, status: Status) -> Result<bool, Fail> {
    match value {
        Value::Int(number) => {
            write!(words, " int {number} {}", name_of(status))?;
            Ok(true)
        }
        Value::Str(text) => push_text(words, text.as_str(), status),
    }
}

// A long text by its length.
fn push_text(words: &mut String, text: &str, status: Status) -> Result<bool, Fail> {
    let name = name_of(status);
    if text.len() > 40 {
        write!(words, " long {} {name}", text.len())?;
    } else {
        write!(words, " '{text}' {name}")?;
    }
    Ok(true)
}

fn push_number(words: &mut String, before: &str, number: u64) -> Result<(), Fail> {
    Ok(write!(words, "{before}{number}")?)
}

// What ends a chunk or a document.
fn push_stop(words: &mut String, stop: FilterStop) -> Result<bool, Fail> {
    match stop {
        FilterStop::Status(status) => {
            write!(words, " {}", name_of(status))?;
            Ok(false)
        }
        FilterStop::OutOfMemory => Err("want of memory".into()),
    }
}

/// The name of a status that filters answer.
pub fn name_of(status: Status) -> &'static str {
    if status == Status::S_OK {
        "ok"
    } else if status == Status::FILTER_S_LAST_TEXT {
        "last"
    } else if status == Status::FILTER_E_END_OF_CHUNKS {
        "end"
    } else if status == Status::FILTER_E_NO_MORE_TEXT {
        "no_more_text"
    } else if status == Status::FILTER_E_NO_MORE_VALUES {
        "no_more_values"
    } else if status == Status::FILTER_E_NO_TEXT {
        "no_text"
    } else if status == Status::FILTER_E_NO_VALUES {
        "no_values"
    } else if status == Status::FILTER_E_ACCESS {
        "access"
    } else if status == Status::FILTER_E_UNKNOWNFORMAT {
        "unknown"
    } else {
        "other"
    }
}
