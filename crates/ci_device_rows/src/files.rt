//! A real file as a disk.

use crate::script::{Said, call};
use ci_base::Text;
use ci_device::FileDisk;
use std::alloc::Global;
use std::fs;
use std::process::Abort;
use std::test::Fail;

const PATH: &str = "ci_device_rows.disk";

fn is_number(said: Said, wanted: u64) -> bool {
    match said {
        Said::Number(count) => count == wanted,
        _ => false,
    }
}

fn is_ok(said: Said) -> bool {
    match said {
        Said::Ok => true,
        _ => false,
    }
}

fn is_bytes(said: Said, wanted: &[u8]) -> bool {
    match said {
        Said::Bytes(bytes, count) => count == wanted.len()
            && count <= 16
            && &bytes[..count] == wanted,
        _ => false,
    }
}

fn is_failed(said: Said) -> bool {
    match said {
        Said::Failed => true,
        _ => false,
    }
}

// Writes to a file that isn't there yet.
fn first_run(rt: &HostRuntime, alloc: Global) -> Result<bool, Fail> {
    let mut disk = FileDisk::new(rt, Text::of(alloc, PATH)?);
    Ok(
        is_number(call(&mut disk, "length"), 0)
            && is_ok(call(&mut disk, "write 2 abc"))
            && is_ok(call(&mut disk, "write 3 X"))
            && is_ok(call(&mut disk, "sync")),
    )
}

// Reads what the first run wrote.
fn second_run(rt: &HostRuntime, alloc: Global) -> Result<bool, Fail> {
    let mut disk = FileDisk::new(rt, Text::of(alloc, PATH)?);
    Ok(is_bytes(call(&mut disk, "read 0 5"), b"\0\0aXc") && is_number(call(&mut disk, "length"), 5))
}

// A file that can't be opened fails at each call.
fn bad_run(rt: &HostRuntime, alloc: Global) -> Result<bool, Fail> {
    let mut disk = FileDisk::new(rt, Text::of(alloc, "ci_device_rows.none/disk")?);
    Ok(is_failed(call(&mut disk, "length")) && is_failed(call(&mut disk, "write 0 a")))
}

#[test]
fn a_file_keeps_what_was_written(rt: HostRuntime) -> Result<(), Fail> {
    let alloc = rt.alloc();
    let _ = fs::remove_file(&rt, PATH);
    let first = first_run(&rt, alloc)?;
    let second = second_run(&rt, alloc)?;
    let bad = bad_run(&rt, alloc)?;
    fs::remove_file(&rt, PATH)?;
    assert!(rt; first && second && bad, "{first} {second} {bad}");
    Ok(())
}
