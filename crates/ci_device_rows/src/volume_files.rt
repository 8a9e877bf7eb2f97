//! A volume in a real file.

use crate::volumes::{committed, created, said_of};
use ci_base::{Text, Text8};
use ci_device::FileDisk;
use std::alloc::Global;
use std::fs;
use std::process::Abort;
use std::test::Fail;

const PATH: &str = "ci_device_rows.volume";

// Makes the volume, and goes to its second generation.
fn written(rt: &HostRuntime, alloc: Global) -> Result<bool, Fail> {
    let disk = FileDisk::new(rt, Text::of(alloc, PATH)?);
    let (made, disk) = created(alloc, disk);
    let (done, _disk) = committed(alloc, disk, Text8::of(alloc, b"in a file")?);
    Ok(made && done)
}

#[test]
fn a_file_keeps_a_volume(rt: HostRuntime) -> Result<(), Fail> {
    let alloc = rt.alloc();
    let _ = fs::remove_file(&rt, PATH);
    let done = written(&rt, alloc)?;
    let said = said_of(alloc, FileDisk::new(&rt, Text::of(alloc, PATH)?))?;
    fs::remove_file(&rt, PATH)?;
    assert!(rt; done);
    assert_eq!(rt; said.as_str(), "2: in a file; 65472");
    Ok(())
}
