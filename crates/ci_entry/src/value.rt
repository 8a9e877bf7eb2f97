ghost use Rattle.std.specs.Prelude.{◌≡◌, IfOk, slice_get};
ghost use Rattle.std.specs.Option.{option_copied};
ghost use Rattle.ci_keys.specs.Entry.{IsValues};
ghost use Rattle.ci_entry.specs.Values.{has_kind, right_value, right_values, values_of};

use ci_base::{OutOfMemory, PropNo, Value};
use ci_chunk::Piece;
use ci_props::{Kind, kind_of};
use std::alloc::Global;

// The properties whose values are numbers or texts.
const VALUED: [u16; 8] = [2, 3, 4, 5, 6, 7, 8, 9];

/// The values of a transcript: of each property the first that has its kind.
pub fn values_of(alloc: Global, pieces: &[Piece]) -> Result<Vec<(PropNo, Value)>, OutOfMemory>
    ensures list { IfOk result (λ values. values.items ≡ values_of pieces.now) }
    ensures values { IfOk result (λ values. IsValues values.items) }
{
    let mut values = Vec::new(alloc);
    for number in VALUED {
        let property = PropNo(number);
        if let Some(value) = first_value(property, pieces) {
            values.push((property, value.copy(alloc)?))?;
        }
    }
    Ok(values)
}

fn first_value(property: PropNo, pieces: &[Piece]) -> Option<&Value>
    ensures { option_copied result ≡ slice_get (right_values property.0 pieces.entry.now) 0 }
{
    for piece in pieces {
        if let Some(value) = right_value(property, piece) {
            return Some(value);
        }
    }
    None
}

// The value of the property that a piece holds, if it has the property's kind.
fn right_value(property: PropNo, piece: &Piece) -> Option<&Value>
    ensures { option_copied result ≡ right_value property.0 piece.entry.now }
{
    match piece {
        Piece::Held {
            chunk,
            value: Some(value),
        } if chunk.property == property && has_kind(kind_of(property), value) => Some(value),
        _ => None,
    }
}

fn has_kind(kind: Option<Kind>, value: &Value) -> bool
    ensures { result ≡ has_kind kind value.now }
{
    match (kind, value) {
        (Some(Kind::Int), Value::Int(_)) => true,
        (Some(Kind::Str), Value::Str(_)) => true,
        _ => false,
    }
}
