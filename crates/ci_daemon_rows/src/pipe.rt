//! Tables of calls and answers: a row is a line, which has the calls, an arrow, how the service
//! ended, and the answers.

use crate::frames::bytes_of;
use crate::table::{add_other, is_none};
use std::alloc::Global;
use std::test::Fail;

/// What the rows of a table are held against.
pub(crate) trait Pipe {
    /// How a service over these bytes ended, and the digits of the bytes written.
    fn came(alloc: Global, calls: &[u8]) -> Result<String, Fail>;
}

/// Fails with those of the rows that don't hold, each with what came in place of what is wanted.
pub(crate) fn all_come<P: Pipe>(alloc: Global, rows: &str) -> Result<(), Fail> {
    let unmet = unmet::<P>(alloc, rows)?;
    is_none(unmet.as_str())
}

fn unmet<P: Pipe>(alloc: Global, rows: &str) -> Result<String, Fail> {
    let mut unmet = String::new(alloc);
    for row in rows.lines() {
        add_unmet::<P>(alloc, &mut unmet, row)?;
    }
    Ok(unmet)
}

fn add_unmet<P: Pipe>(alloc: Global, unmet: &mut String, row: &str) -> Result<(), Fail> {
    let (given, wanted) = row.split_once(" => ").ok_or("a row")?;
    let came = came_of::<P>(alloc, given)?;
    let wanted = wanted_of(alloc, wanted)?;
    add_other(unmet, row, came.as_str(), wanted.as_str())
}

fn came_of<P: Pipe>(alloc: Global, given: &str) -> Result<String, Fail> {
    let calls = bytes_of(alloc, given)?;
    P::came(alloc, calls.as_slice())
}

fn wanted_of(alloc: Global, wanted: &str) -> Result<String, Fail> {
    let (ended, answers) = wanted.split_once(' ').ok_or("an end and answers")?;
    let digits = digits_of(alloc, answers)?;
    Ok(format!(in alloc; "{ended} {}", digits.as_str())?)
}

fn digits_of(alloc: Global, answers: &str) -> Result<String, Fail> {
    let bytes = bytes_of(alloc, answers)?;
    Ok(hex::encode(alloc, bytes.as_slice())?)
}
