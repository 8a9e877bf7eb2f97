//! Disks in memory, and what a stop may leave of them.

use crate::script::{Said, call};
use crate::table::{Table, unmet};
use ci_base::{OutOfMemory, Text8};
use ci_device::{Disk, MemoryDisk, Pick, SureMemoryDisk};
use std::alloc::{AllocError, Global};
use std::test::Fail;

// The bytes of a disk, the call that is to fail and the one behind which it stops, where there are
// such calls, and its room.
#[derive(Clone, Copy)]
struct Made<'a> {
    bytes: &'a str,
    failing: Option<u64>,
    stop: Option<u64>,
    room: usize,
}

// How a disk is made, and the script.
fn row_of(given: &str) -> Option<(Made<'_>, &str)> {
    let (bytes, rest) = given.split_once(" | ")?;
    let (failing, rest) = rest.split_once(" | ")?;
    let (stop, rest) = rest.split_once(" | ")?;
    let (room, script) = rest.split_once(" | ")?;
    let made = Made {
        bytes,
        failing: failing.parse::<u64>().ok(),
        stop: stop.parse::<u64>().ok(),
        room: room.parse::<usize>().ok()?,
    };
    Some((made, script))
}

// Bytes as a text, a byte 0 as a dot.
fn shown(alloc: Global, bytes: &[u8]) -> Result<String, AllocError> {
    let mut text = String::new(alloc);
    for byte in bytes {
        text.push(if *byte == 0 { '.' } else { char::from(*byte) })?;
    }
    Ok(text)
}

fn said_of(alloc: Global, said: Said) -> Result<String, AllocError> {
    match said {
        Said::Ok => String::from_str(alloc, "ok"),
        Said::Failed => String::from_str(alloc, "failed"),
        Said::Wrong => String::from_str(alloc, "wrong"),
        Said::Number(count) => format!(in alloc; "{count}"),
        Said::Bytes(bytes, count) => shown(alloc, &bytes[..count.min(16)]),
    }
}

fn picked(line: &str) -> Option<Pick> {
    match line {
        "old" => Some(Pick::Old),
        "new" => Some(Pick::New),
        "filled" => Some(Pick::Filled(b'#')),
        _ => None,
    }
}

// A disk that tells what a stop may leave of it.
trait Leaving: Disk {
    fn image(&self, alloc: Global, pick: Pick) -> Result<Text8, OutOfMemory>;
}

impl Leaving for MemoryDisk {
    fn image(&self, alloc: Global, pick: Pick) -> Result<Text8, OutOfMemory> {
        self.left(alloc, pick)
    }
}

impl Leaving for SureMemoryDisk {
    fn image(&self, alloc: Global, pick: Pick) -> Result<Text8, OutOfMemory> {
        self.left(alloc, pick)
    }
}

fn play_line<D: Leaving>(alloc: Global, disk: &mut D, line: &str) -> Result<String, OutOfMemory> {
    match picked(line) {
        Some(pick) => Ok(shown(alloc, disk.image(alloc, pick)?.items())?),
        None => Ok(said_of(alloc, call(disk, line))?),
    }
}

fn play<D: Leaving>(
    alloc: Global,
    said: &mut String,
    disk: &mut D,
    script: &str,
) -> Result<(), OutOfMemory> {
    for line in script.split("; ") {
        said.push_str(play_line(alloc, disk, line)?.as_str())?;
        said.push(';')?;
    }
    Ok(())
}

fn failing_calls(alloc: Global, call: Option<u64>) -> Result<Vec<u64>, OutOfMemory> {
    match call {
        Some(call) => Ok(Vec::from_slice(alloc, &[call])?),
        None => Ok(Vec::new(alloc)),
    }
}

fn disk_of(alloc: Global, made: Made<'_>) -> Result<MemoryDisk, OutOfMemory> {
    let bytes = Text8::of(alloc, made.bytes.as_bytes())?;
    let fails = failing_calls(alloc, made.failing)?;
    MemoryDisk::new(
        alloc,
        bytes,
        fails,
        made.stop.unwrap_or(u64::MAX),
        made.room,
    )
}

fn sure_disk_of(alloc: Global, made: Made<'_>) -> Result<SureMemoryDisk, OutOfMemory> {
    SureMemoryDisk::new(alloc, Text8::of(alloc, made.bytes.as_bytes())?, made.room)
}

// What a row's script says over a disk in memory. A row has the bytes of the disk, the call that
// fails and the one behind which it stops, a dash for none, the room, and the script.
struct Scripts;

impl Table for Scripts {
    fn told(alloc: Global, given: &str) -> Result<String, Fail> {
        let (made, script) = row_of(given).ok_or("a row")?;
        let mut disk = disk_of(alloc, made)?;
        let mut said = String::new(alloc);
        play(alloc, &mut said, &mut disk, script)?;
        Ok(said)
    }
}

// The same over a disk that has no such calls.
struct SureScripts;

impl Table for SureScripts {
    fn told(alloc: Global, given: &str) -> Result<String, Fail> {
        let (made, script) = row_of(given).ok_or("a row")?;
        let mut disk = sure_disk_of(alloc, made)?;
        let mut said = String::new(alloc);
        play(alloc, &mut said, &mut disk, script)?;
        Ok(said)
    }
}

// As written; what a stop leaves between two syncs; behind the end; room for the calls, and for the
// bytes; calls that are no calls.
const ROWS: &str = "\
abc | - | - | 4096 | length; read 0 3; write 1 XY; read 0 3; read 1 1; sync; length => 3;abc;ok;aXY;X;ok;3;
abc | - | - | 4096 | old; new; filled; write 1 XY; old; new; filled; sync; old; new; filled => abc;abc;abc;ok;abc;aXY;a##;ok;aXY;aXY;aXY;
abc | - | - | 4096 | write 5 z; length; read 0 6; old; filled; write 1 Q; old; filled; sync; old => ok;6;abc..z;abc;abc###;ok;abc;a#c###;ok;aQc..z;
abc | - | - | 97 | length; write 0 X; sync; length; new => 3;ok;ok;failed;Xbc;
abc | - | - | 70 | write 69 ab; length; write 0 abcdefg; write 0 abcdef; new => failed;3;failed;ok;abcdef;
abc | - | - | 4096 | read 2 2; write 1073741823 ab; jump; new => wrong;wrong;wrong;abc;";

// A write that fails leaves its range unsynced; a sync that fails leaves what was unsynced; every
// call behind the stop.
const FAILING: &str = "\
abc | 0 | - | 4096 | write 0 X; read 0 3; old; new; filled; sync; filled => failed;abc;abc;abc;#bc;ok;abc;
abc | 1 | - | 4096 | write 2 Z; sync; old; new; filled; sync; old => ok;failed;abc;abZ;ab#;ok;abZ;
abc | - | 2 | 4096 | write 0 X; sync; write 1 Y; sync; length; read 0 1; old; new; filled => ok;ok;failed;failed;failed;failed;Xbc;Xbc;X#c;";

#[test]
fn scripts_on_a_disk_in_memory(rt: HostRuntime) -> Result<(), Fail> {
    assert_eq!(rt; unmet::<Scripts>(rt.alloc(), ROWS)?.as_str(), "");
    assert_eq!(rt; unmet::<Scripts>(rt.alloc(), FAILING)?.as_str(), "");
    Ok(())
}

#[test]
fn scripts_on_a_disk_that_fails_for_want_of_room_alone(rt: HostRuntime) -> Result<(), Fail> {
    assert_eq!(rt; unmet::<SureScripts>(rt.alloc(), ROWS)?.as_str(), "");
    Ok(())
}
