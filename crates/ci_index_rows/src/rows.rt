//! Rows, byte by byte.

use crate::table::{Table, unmet};
use ci_base::{PropNo, Value};
use ci_rows_format::{Row, RowState, RowsFault, read_rows, rows_bytes};
use std::alloc::Global;
use std::test::Fail;

// What the bytes are: their rows, spelled again as they were, or no rows.
fn told_of(alloc: Global, bytes: &[u8]) -> Result<String, Fail> {
    match read_rows(alloc, bytes) {
        Ok(rows) => {
            let again = rows_bytes(alloc, rows.as_slice())?;
            if again.items() == bytes {
                told_rows(alloc, rows.as_slice())
            } else {
                Ok(String::from_str(alloc, "other bytes")?)
            }
        }
        Err(RowsFault::BadRows) => Ok(String::from_str(alloc, "no rows")?),
        Err(RowsFault::OutOfMemory) => Err("memory".into()),
    }
}

fn told_rows(alloc: Global, rows: &[Row]) -> Result<String, Fail> {
    let mut told = String::new(alloc);
    tell_rows(alloc, &mut told, rows)?;
    Ok(told)
}

fn tell_rows(alloc: Global, told: &mut String, rows: &[Row]) -> Result<(), Fail> {
    write!(told, "{} rows", rows.len())?;
    for row in rows {
        tell_row(told, &row.copy(alloc)?)?;
    }
    Ok(())
}

fn tell_row(told: &mut String, row: &Row) -> Result<(), Fail> {
    let state = match row.state {
        RowState::Kept => "kept",
        RowState::Erased => "erased",
    };
    write!(
        told,
        "; {} {} {} {state}",
        row.doc.0,
        row.path.as_str(),
        row.seq.0
    )?;
    for (property, value) in row.values.items() {
        tell_value(told, *property, value)?;
    }
    Ok(())
}

fn tell_value(told: &mut String, property: PropNo, value: &Value) -> Result<(), Fail> {
    match value {
        Value::Int(number) => write!(told, " {}={number}", property.0)?,
        Value::Str(text) => write!(told, " {}='{}'", property.0, text.as_str())?,
    }
    Ok(())
}

pub(crate) fn bytes_of(alloc: Global, text: &str) -> Result<Vec<u8>, Fail> {
    let mut digits = String::new(alloc);
    for part in text.split(' ') {
        digits.push_str(part)?;
    }
    hex::decode(alloc, digits.as_str()).map_err(|_| "no bytes".into())
}

// Rows of bytes, and what they are.
struct Fate;

impl Table for Fate {
    fn told(alloc: Global, given: &str) -> Result<String, Fail> {
        let bytes = bytes_of(alloc, given)?;
        told_of(alloc, bytes.as_slice())
    }
}

#[test]
fn rows_are_read_and_spelled_again(rt: HostRuntime) -> Result<(), Fail> {
    const ROWS: &str = "\
43495731 00 => 0 rows
43495731 01 00 08 2f642f612e747874 01 01 00 => 1 rows; 0 /d/a.txt 1 kept
43495731 01 ac02 02 2f61 0d 02 00 => 1 rows; 300 /a 13 erased
43495731 01 ffffffff0f 02 2f61 ffffffffffffffffff01 01 00 => 1 rows; 4294967295 /a 18446744073709551615 kept
43495731 01 07 02 2f61 05 01 02 02 02 0161 03 01 000000000000000d => 1 rows; 7 /a 5 kept 2='a' 3=13
43495731 01 07 02 2f61 05 01 01 04 01 ffffffffffffffff => 1 rows; 7 /a 5 kept 4=-1
43495731 02 07 02 2f61 05 02 00 08 02 2f62 06 01 00 => 2 rows; 7 /a 5 erased; 8 /b 6 kept";
    assert_eq!(rt; unmet::<Fate>(rt.alloc(), ROWS)?.as_str(), "");
    Ok(())
}

#[test]
fn other_bytes_are_no_rows(rt: HostRuntime) -> Result<(), Fail> {
    const ROWS: &str = "\
43495730 00 => no rows
43495731 => no rows
43495731 00 00 => no rows
43495731 8000 => no rows
43495731 01 8080808010 02 2f61 05 01 00 => no rows
43495731 01 07 02 6161 05 01 00 => no rows
43495731 01 07 02 2f61 05 00 00 => no rows
43495731 01 07 02 2f61 05 03 00 => no rows
43495731 01 07 02 2f61 05 02 01 03 01 000000000000000d => no rows
43495731 01 07 02 2f61 05 01 01 01 02 0161 => no rows
43495731 01 07 02 2f61 05 01 01 03 02 0161 => no rows
43495731 01 07 02 2f61 05 01 01 05 01 000000000000000d => no rows
43495731 01 07 02 2f61 05 01 01 05 02 01ff => no rows
43495731 01 07 02 2f61 05 01 01 0a 02 0161 => no rows
43495731 01 07 02 2f61 05 01 02 06 02 0161 05 02 0161 => no rows
43495731 01 07 02 2f61 05 01 02 05 02 0161 05 02 0161 => no rows
43495731 02 07 02 2f61 05 01 00 07 02 2f62 06 01 00 => no rows
43495731 02 08 02 2f61 05 01 00 07 02 2f62 06 01 00 => no rows
43495731 ffffffffffffffffff01 07 02 2f61 05 01 00 => no rows";
    assert_eq!(rt; unmet::<Fate>(rt.alloc(), ROWS)?.as_str(), "");
    Ok(())
}

const SMALL: &str =
    "43495731 02 07 02 2f61 05 01 02 03 01 00000000000001ff 05 02 026869 ac02 02 2f62 06 02 00";

// How many of the bytes' fronts are rows.
fn whole_fronts(alloc: Global, bytes: &[u8]) -> Result<u32, Fail> {
    let mut whole = 0u32;
    for length in 0..bytes.len() {
        if told_of(alloc, &bytes[..length])?.as_str() != "no rows" {
            whole = whole.saturating_add(1);
        }
    }
    Ok(whole)
}

// A byte set to each value: how many of the lists are read, and how many of those are spelled
// otherwise than they were.
fn changed_at(alloc: Global, bytes: &mut [u8], place: usize) -> Result<(u32, u32), Fail> {
    let mut read = 0u32;
    let mut otherwise = 0u32;
    for other in 0..=255u8 {
        if place < bytes.len() {
            bytes[place] = other;
        }
        let told = told_of(alloc, bytes)?;
        if told.as_str() != "no rows" {
            read = read.saturating_add(1);
        }
        if told.as_str() == "other bytes" {
            otherwise = otherwise.saturating_add(1);
        }
    }
    Ok((read, otherwise))
}

fn changed(alloc: Global, text: &str) -> Result<(u32, u32), Fail> {
    let count = bytes_of(alloc, text)?.len();
    let (mut read, mut otherwise) = (0u32, 0u32);
    for place in 0..count {
        let mut bytes = bytes_of(alloc, text)?;
        let (one, other) = changed_at(alloc, bytes.as_mut_slice(), place)?;
        read = read.saturating_add(one);
        otherwise = otherwise.saturating_add(other);
    }
    Ok((read, otherwise))
}

#[test]
fn cut_bytes_are_no_rows(rt: HostRuntime) -> Result<(), Fail> {
    let bytes = bytes_of(rt.alloc(), SMALL)?;
    assert_eq!(rt; whole_fronts(rt.alloc(), bytes.as_slice())?, 0);
    Ok(())
}

#[test]
fn changed_bytes_are_read_as_they_are_spelled(rt: HostRuntime) -> Result<(), Fail> {
    let (read, otherwise) = changed(rt.alloc(), SMALL)?;
    assert!(rt; read > 2_000);
    assert_eq!(rt; otherwise, 0);
    Ok(())
}
