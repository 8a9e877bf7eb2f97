//! Tables of texts: a row is a line, what is given, an arrow, and what is told of it.

use std::alloc::Global;
use std::test::Fail;

/// What the rows of a table are held against.
pub(crate) trait Table {
    /// What is told of a row's given text.
    fn told(alloc: Global, given: &str) -> Result<String, Fail>;
}

/// Fails with those of the rows that don't hold, each with what is told in place of what is wanted.
pub(crate) fn all_hold<T: Table>(alloc: Global, rows: &str) -> Result<(), Fail> {
    let unmet = unmet::<T>(alloc, rows)?;
    is_none(unmet.as_str())
}

/// Fails with the rows that don't hold.
pub(crate) fn is_none(unmet: &str) -> Result<(), Fail> {
    if unmet.is_empty() {
        Ok(())
    } else {
        Err(unmet.into())
    }
}

fn unmet<T: Table>(alloc: Global, rows: &str) -> Result<String, Fail> {
    let mut unmet = String::new(alloc);
    for row in rows.lines() {
        add_unmet::<T>(alloc, &mut unmet, row)?;
    }
    Ok(unmet)
}

fn add_unmet<T: Table>(alloc: Global, unmet: &mut String, row: &str) -> Result<(), Fail> {
    let (given, wanted) = row.split_once(" => ").ok_or("a row")?;
    let told = T::told(alloc, given)?;
    add_other(unmet, row, told.as_str(), wanted)
}

/// Adds a row where what is told isn't what is wanted.
pub(crate) fn add_other(
    unmet: &mut String,
    row: &str,
    told: &str,
    wanted: &str,
) -> Result<(), Fail> {
    if told != wanted {
        write!(unmet, "{row}, but {told}\n")?;
    }
    Ok(())
}
