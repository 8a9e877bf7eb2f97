// Rows, read. The bytes are the letters CIW1, and the rows behind their count.
ghost use Rattle.std.specs.Prelude.{◌≡◌, ◌++◌, List, ℕ, IfOk, IsErrOf, map};
ghost use Rattle.ci_front.specs.Front.{many_at, rises};
ghost use Rattle.ci_rows_format.specs.Reading.{Gives, fields_at, fields_of, magic_at, may_have, row_at, rows_of};
ghost use Rattle.ci_rows_format.specs.Rows.{IsRows, rows_spelling};
ghost use Rattle.ci_rows_format.specs.declared.row.Row.{Row as AnyRow};

use crate::fields::{read_doc, read_number, read_path, read_state, read_values};
use crate::write::MAGIC;
use crate::{Row, RowState, RowsFault};
use ci_base::Seq;
use ci_front::bytes_front;
use std::alloc::Global;

/// The rows that the bytes spell, all of the bytes.
pub fn read_rows(alloc: Global, bytes: &[u8]) -> Result<Vec<Row>, RowsFault>
    ensures ok { IfOk result (λ rows.
        IsRows rows.items × (rows_spelling rows.items ≡ bytes.now)) }
    ensures bad { IsErrOf result RowsFault.BadRows →
        (rows : List AnyRow) → IsRows rows → ¬ (rows_spelling rows ≡ bytes.now) }
{
    read_all(alloc, bytes)
}

/// No spelling of rows begins another, and none is that of two lists. A call does nothing: the
/// contract is what it is for.
pub fn rows_law()
    ensures { (a b : List AnyRow) (rest more : List ℕ) → IsRows a → IsRows b →
        rows_spelling a ++ rest ≡ rows_spelling b ++ more → a ≡ b }
{}

#[tactic(auto, unfolding(crate::specs::Reading::rows_of))]
fn read_all(alloc: Global, bytes: &[u8]) -> Result<Vec<Row>, RowsFault>
    ensures { Gives (λ rows. rows.items) result (rows_of bytes.now) }
{
    let rest = read_magic(bytes)?;
    let (count, rest) = read_number(rest)?;
    let (rows, rest) = read_list(alloc, count, rest)?;
    if !rest.is_empty() || !docs_rise(rows.as_slice()) {
        return Err(RowsFault::BadRows);
    }
    Ok(rows)
}

fn read_magic(bytes: &[u8]) -> Result<&[u8], RowsFault>
    ensures { Gives (λ rest. rest.now) result (magic_at bytes.now) }
{
    match bytes_front(bytes, 4) {
        None => Err(RowsFault::BadRows),
        Some((front, rest)) => {
            if front != MAGIC.as_slice() {
                return Err(RowsFault::BadRows);
            }
            Ok(rest)
        }
    }
}

// So many rows, in whatever order.
fn read_list(alloc: Global, count: u64, bytes: &[u8]) -> Result<(Vec<Row>, &[u8]), RowsFault>
    ensures { Gives (λ x. (x.0.items, x.1.now)) result (many_at row_at count bytes.now) }
{
    let mut rows = Vec::new(alloc);
    let mut rest = bytes;
    for _ in 0..count {
        let (row, after) = read_row(alloc, rest)?;
        rows.push(row)?;
        rest = after;
    }
    Ok((rows, rest))
}

#[tactic(auto, unfolding(crate::specs::Reading::row_at))]
fn read_row(alloc: Global, bytes: &[u8]) -> Result<(Row, &[u8]), RowsFault>
    ensures { Gives (λ x. (x.0, x.1.now)) result (row_at bytes.now) }
{
    let (row, rest) = read_fields(alloc, bytes)?;
    if !may_have(&row) {
        return Err(RowsFault::BadRows);
    }
    Ok((row, rest))
}

#[tactic(auto, unfolding(crate::specs::Reading::fields_at))]
fn read_fields(alloc: Global, bytes: &[u8]) -> Result<(Row, &[u8]), RowsFault>
    ensures { Gives (λ x. (fields_of x.0, x.1.now)) result (fields_at bytes.now) }
{
    let (doc, rest) = read_doc(bytes)?;
    let (path, rest) = read_path(alloc, rest)?;
    let (seq, rest) = read_number(rest)?;
    let (state, rest) = read_state(rest)?;
    let (values, rest) = read_values(alloc, rest)?;
    let row = Row {
        doc,
        path,
        seq: Seq(seq),
        state,
        values,
    };
    Ok((row, rest))
}

// A document that was taken away has no values.
fn may_have(row: &Row) -> bool
    ensures { result ≡ may_have row.now.state row.now.values }
{
    match row.state {
        RowState::Kept => true,
        RowState::Erased => row.values.items().is_empty(),
    }
}

fn docs_rise(rows: &[Row]) -> bool
    ensures { result ≡ rises (map (λ row. row.doc.0) rows.now) }
{
    for place in 1..rows.len() {
        if rows[place - 1].doc.0 >= rows[place].doc.0 {
            return false;
        }
    }
    true
}
