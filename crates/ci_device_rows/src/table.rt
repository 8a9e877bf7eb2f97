//! Tables of texts: a row is a line, what is given, an arrow, and what is told of it.

use std::alloc::Global;
use std::test::Fail;

/// What the rows of a table are held against.
pub(crate) trait Table {
    /// What is told of a row's given text.
    fn told(alloc: Global, given: &str) -> Result<String, Fail>;
}

/// Those of the rows that don't hold, each with what is told in place of what is wanted.
pub(crate) fn unmet<T: Table>(alloc: Global, rows: &str) -> Result<String, Fail> {
    let mut found = String::new(alloc);
    for row in rows.lines() {
        let (given, wanted) = row.split_once(" => ").ok_or("a row")?;
        let told = T::told(alloc, given)?;
        if told.as_str() != wanted {
            write!(found, "{row}, but {}\n", told.as_str())?;
        }
    }
    Ok(found)
}
