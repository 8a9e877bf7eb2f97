// The rows of documents that are there.
ghost use Rattle.std.specs.Prelude.{◌≡◌, ◌++◌, OnOk, map};
ghost use Rattle.ci_part.specs.Covering.{live};
ghost use Rattle.ci_part.specs.Part.{lists_of};
ghost use Rattle.ci_wordlist.specs.Filing.{is_kept};

use crate::Part;
use crate::covered::is_covered;
use ci_base::OutOfMemory;
use ci_rows_format::{Row, RowState};
use std::alloc::Global;

/// Adds copies of the rows of documents that are there, and that no newer part covers.
pub fn add_live(
    alloc: Global,
    all: &mut Vec<Row>,
    rows: &[Row],
    newer: &[Part],
) -> Result<(), OutOfMemory>
    ensures { OnOk result (all.new.items
        ≡ all.old.items ++ live (map lists_of newer.now) rows.now) }
{
    for row in rows {
        if is_kept(row) && !is_covered(newer, row.doc) {
            all.push(row.copy(alloc)?)?;
        }
    }
    Ok(())
}

fn is_kept(row: &Row) -> bool
    ensures { result ≡ is_kept row.now.state }
{
    match row.state {
        RowState::Kept => true,
        RowState::Erased => false,
    }
}
