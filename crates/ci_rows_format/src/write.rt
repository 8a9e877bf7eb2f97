// Rows, written.
ghost use Rattle.std.specs.Prelude.{◌≡◌, ◌<◌, ◌^◌, ◌++◌, ◌∷◌, [], All, IfOk, OnOk, codes, length};
ghost use Rattle.std.specs.List.{flat_map};
ghost use Rattle.ci_base.specs.Path.{IsPath};
ghost use Rattle.ci_base.specs.Varint.{varint};
ghost use Rattle.ci_front.specs.Front.{counted, i64_bytes, sized};
ghost use Rattle.ci_rows_format.specs.Rows.{HasRightValues, IsRow, IsRows, IsHeld, Rises, held_bytes, row_bytes, rows_spelling, state_byte, value_bytes};

use crate::{Row, RowState};
use ci_base::{DocNo, OutOfMemory, PropNo, Seq, Text8, Value, put_varint};
use std::alloc::Global;

/// The letters that rows begin with.
pub const MAGIC: [u8; 4] = *b"CIW1";

/// The one spelling of rows.
#[tactic(auto, unfolding(crate::specs::Rows::rows_spelling))]
pub fn rows_bytes(alloc: Global, rows: &[Row]) -> Result<Text8, OutOfMemory>
    requires ascend { Rises (λ row. row.doc.0) rows.now }
    requires each { All HasRightValues rows.now }
    ensures spelling { IfOk result (λ t. t ≡ rows_spelling rows.now) }
    ensures grammar { OnOk result (IsRows rows.now) }
{
    let mut out = Vec::new(alloc);
    out.extend_from_slice(MAGIC.as_slice())?;
    put_count(&mut out, rows.len())?;
    for row in rows {
        put_row(&mut out, row)?;
    }
    Ok(Text8::from(out))
}

fn put_row(out: &mut Vec<u8>, row: &Row) -> Result<(), OutOfMemory>
    requires { HasRightValues row.now }
    ensures bytes { OnOk result (out.new.items ≡ out.old.items ++ row_bytes row.now) }
    ensures grammar { OnOk result (IsRow row.now) }
{
    put_doc(out, row.doc)?;
    put_sized(out, row.path.as_str().as_bytes())?;
    put_seq(out, row.seq)?;
    out.push(byte_of_state(row.state))?;
    put_values(out, row.values.items())?;
    Ok(())
}

fn put_count(out: &mut Vec<u8>, count: usize) -> Result<(), OutOfMemory>
    ensures bytes { OnOk result (out.new.items ≡ out.old.items ++ varint count) }
    ensures range { count < 2 ^ 64 }
{
    put_varint(out, count as u64)
}

fn put_doc(out: &mut Vec<u8>, doc: DocNo) -> Result<(), OutOfMemory>
    ensures bytes { OnOk result (out.new.items ≡ out.old.items ++ varint doc.0) }
    ensures range { doc.0 < 2 ^ 32 }
{
    put_varint(out, u64::from(doc.0))
}

fn put_seq(out: &mut Vec<u8>, seq: Seq) -> Result<(), OutOfMemory>
    ensures bytes { OnOk result (out.new.items ≡ out.old.items ++ varint seq.0) }
    ensures range { seq.0 < 2 ^ 64 }
{
    put_varint(out, seq.0)
}

fn byte_of_state(state: RowState) -> u8
    ensures { result ≡ state_byte state }
{
    match state {
        RowState::Kept => 1,
        RowState::Erased => 2,
    }
}

fn put_sized(out: &mut Vec<u8>, bytes: &[u8]) -> Result<(), OutOfMemory>
    ensures { OnOk result (out.new.items ≡ out.old.items ++ sized bytes.now) }
{
    put_varint(out, bytes.len() as u64)?;
    out.extend_from_slice(bytes)?;
    Ok(())
}

fn put_values(out: &mut Vec<u8>, values: &[(PropNo, Value)]) -> Result<(), OutOfMemory>
    ensures bytes { OnOk result
        (out.new.items ≡ out.old.items ++ counted value_bytes values.now) }
    ensures few { length values.now < 2 ^ 64 }
    ensures each { OnOk result
        (All (λ value. (value.0.0 < 2 ^ 16) × IsHeld value.1) values.now) }
{
    put_varint(out, values.len() as u64)?;
    for (property, value) in values {
        put_value(out, *property, value)?;
    }
    Ok(())
}

fn put_value(out: &mut Vec<u8>, property: PropNo, value: &Value) -> Result<(), OutOfMemory>
    ensures bytes { OnOk result
        (out.new.items ≡ out.old.items ++ value_bytes (property, value.now)) }
    ensures range { property.0 < 2 ^ 16 }
    ensures held { OnOk result (IsHeld value.now) }
{
    put_varint(out, u64::from(property.0))?;
    match value {
        Value::Int(number) => {
            out.push(1)?;
            put_i64(out, *number)?;
        }
        Value::Str(text) => {
            out.push(2)?;
            put_sized(out, text.as_str().as_bytes())?;
        }
    }
    Ok(())
}

#[tactic(auto, unfolding(ci_front::specs::Front::i64_bytes))]
fn put_i64(out: &mut Vec<u8>, number: i64) -> Result<(), OutOfMemory>
    ensures { OnOk result (out.new.items ≡ out.old.items ++ i64_bytes number) }
{
    out.extend_from_slice(&number.to_be_bytes())?;
    Ok(())
}
