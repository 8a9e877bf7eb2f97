// The fields of a row, read. Each function gives what its definition reads.
ghost use Rattle.std.specs.Prelude.{◌≡◌, map};
ghost use Rattle.std.specs.List.{flat_map};
ghost use Rattle.ci_front.specs.Front.{many_at, number_at, rises, sized_at};
ghost use Rattle.ci_rows_format.specs.Reading.{Gives, doc_at, held_at, int_at, path_at, state_at, text_at, value_at, values_at};
ghost use Rattle.ci_rows_format.specs.Rows.{has_kind};

use crate::{RowState, RowsFault, Values};
use ci_base::{DocNo, PathFault, PathText, PropNo, Text, Value};
use ci_front::{i64_front, number_front, sized_front};
use ci_props::{Kind, kind_of};
use std::alloc::Global;

pub fn read_number(bytes: &[u8]) -> Result<(u64, &[u8]), RowsFault>
    ensures { Gives (λ x. (x.0, x.1.now)) result (number_at bytes.now) }
{
    match number_front(bytes) {
        None => Err(RowsFault::BadRows),
        Some((number, rest)) => Ok((number, rest)),
    }
}

fn read_sized(bytes: &[u8]) -> Result<(&[u8], &[u8]), RowsFault>
    ensures { Gives (λ x. (x.0.now, x.1.now)) result (sized_at bytes.now) }
{
    match sized_front(bytes) {
        None => Err(RowsFault::BadRows),
        Some((text, rest)) => Ok((text, rest)),
    }
}

#[tactic(auto, unfolding(crate::specs::Reading::doc_at))]
pub fn read_doc(bytes: &[u8]) -> Result<(DocNo, &[u8]), RowsFault>
    ensures { Gives (λ x. (x.0.0, x.1.now)) result (doc_at bytes.now) }
{
    let (number, rest) = read_number(bytes)?;
    if number >= 0x1_0000_0000 {
        return Err(RowsFault::BadRows);
    }
    Ok((DocNo(number as u32), rest))
}

#[tactic(auto, unfolding(crate::specs::Reading::path_at))]
pub fn read_path(alloc: Global, bytes: &[u8]) -> Result<(PathText, &[u8]), RowsFault>
    ensures { Gives (λ x. (x.0, x.1.now)) result (path_at bytes.now) }
{
    let (text, rest) = read_sized(bytes)?;
    match PathText::read(alloc, text) {
        Ok(path) => Ok((path, rest)),
        Err(PathFault::BadPath) => Err(RowsFault::BadRows),
        Err(PathFault::OutOfMemory) => Err(RowsFault::OutOfMemory),
    }
}

#[tactic(auto, unfolding(crate::specs::Reading::state_at))]
pub fn read_state(bytes: &[u8]) -> Result<(RowState, &[u8]), RowsFault>
    ensures { Gives (λ x. (x.0, x.1.now)) result (state_at bytes.now) }
{
    match bytes {
        [] => Err(RowsFault::BadRows),
        [1, rest @ ..] => Ok((RowState::Kept, rest)),
        [2, rest @ ..] => Ok((RowState::Erased, rest)),
        [_, ..] => Err(RowsFault::BadRows),
    }
}

#[tactic(auto, unfolding(crate::specs::Reading::text_at))]
fn read_text(alloc: Global, bytes: &[u8]) -> Result<(Text, &[u8]), RowsFault>
    ensures { Gives (λ x. (x.0, x.1.now)) result (text_at bytes.now) }
{
    let (text, rest) = read_sized(bytes)?;
    match str::from_utf8(text) {
        Ok(text) => Ok((Text::of(alloc, text)?, rest)),
        Err(_) => Err(RowsFault::BadRows),
    }
}

fn read_int(bytes: &[u8]) -> Result<(Value, &[u8]), RowsFault>
    ensures { Gives (λ x. (x.0, x.1.now)) result (int_at bytes.now) }
{
    match i64_front(bytes) {
        None => Err(RowsFault::BadRows),
        Some((number, rest)) => Ok((Value::Int(number), rest)),
    }
}

#[tactic(auto, unfolding(crate::specs::Reading::held_at))]
fn read_held(alloc: Global, bytes: &[u8]) -> Result<(Value, &[u8]), RowsFault>
    ensures { Gives (λ x. (x.0, x.1.now)) result (held_at bytes.now) }
{
    match bytes {
        [] => Err(RowsFault::BadRows),
        [1, rest @ ..] => read_int(rest),
        [2, rest @ ..] => {
            let (text, rest) = read_text(alloc, rest)?;
            Ok((Value::Str(text), rest))
        }
        [_, ..] => Err(RowsFault::BadRows),
    }
}

fn has_kind(kind: Option<Kind>, value: &Value) -> bool
    ensures { result ≡ has_kind kind value.now }
{
    match (kind, value) {
        (Some(Kind::Int), Value::Int(_)) => true,
        (Some(Kind::Str), Value::Str(_)) => true,
        _ => false,
    }
}

#[tactic(auto, unfolding(crate::specs::Reading::value_at))]
fn read_value(alloc: Global, bytes: &[u8]) -> Result<((PropNo, Value), &[u8]), RowsFault>
    ensures { Gives (λ x. (x.0, x.1.now)) result (value_at bytes.now) }
{
    let (number, rest) = read_number(bytes)?;
    let (value, rest) = read_held(alloc, rest)?;
    if number >= 0x1_0000 {
        return Err(RowsFault::BadRows);
    }
    let property = PropNo(number as u16);
    if !has_kind(kind_of(property), &value) {
        return Err(RowsFault::BadRows);
    }
    Ok(((property, value), rest))
}

fn properties_rise(values: &[(PropNo, Value)]) -> bool
    ensures { result ≡ rises (map (λ value. value.0.0) values.now) }
{
    for place in 1..values.len() {
        if values[place - 1].0.0 >= values[place].0.0 {
            return false;
        }
    }
    true
}

// So many values, in whatever order.
fn read_list(
    alloc: Global,
    count: u64,
    bytes: &[u8],
) -> Result<(Vec<(PropNo, Value)>, &[u8]), RowsFault>
    ensures { Gives (λ x. (x.0.items, x.1.now)) result (many_at value_at count bytes.now) }
{
    let mut values = Vec::new(alloc);
    let mut rest = bytes;
    for _ in 0..count {
        let (one, after) = read_value(alloc, rest)?;
        values.push(one)?;
        rest = after;
    }
    Ok((values, rest))
}

#[tactic(auto, unfolding(crate::specs::Reading::values_at))]
pub fn read_values(alloc: Global, bytes: &[u8]) -> Result<(Values, &[u8]), RowsFault>
    ensures { Gives (λ x. (x.0, x.1.now)) result (values_at bytes.now) }
{
    let (count, rest) = read_number(bytes)?;
    let (list, rest) = read_list(alloc, count, rest)?;
    if !properties_rise(list.as_slice()) {
        return Err(RowsFault::BadRows);
    }
    Ok((Values::from(list), rest))
}
