//! A patch of a held chain, with a stop or a fault at each call.

ghost use Rattle.std.specs.Prelude.{◌≡◌, ◌≤◌, ◌+◌};
ghost use Rattle.ci_volume.specs.Uses.{use_of};
ghost use Rattle.ci_volume.specs.PageUse.TheVariants.{Held};

use crate::stops::{PICKS, left_said};
use crate::table::{Table, unmet};
use crate::volumes::{LOG_PAGE, Trouble, disk_with, new_image, new_volume, said_of};
use ci_base::OutOfMemory;
use ci_device::{Disk, MemoryDisk};
use ci_volume::{Volume, VolumeFault};
use std::alloc::Global;
use std::test::Fail;

// Writes two bytes over those of a page and makes them stable; and what was refused.
fn patch<D: Disk>(volume: &mut Volume<D>, page: u32, at: u32) -> &'static str
    requires held { use_of volume.old.table.uses.pages.items page ≡ Held }
    requires fits { at + 2 ≤ 4092 }
{
    match volume.patch(page, at, b"XY") {
        Err(_) => "patch refused",
        Ok(()) => match volume.sync() {
            Err(_) => "sync refused",
            Ok(()) => "done",
        },
    }
}

// The patch of an image's root.
fn patch_root(alloc: Global, disk: MemoryDisk) -> (&'static str, MemoryDisk) {
    match Volume::open(alloc, disk) {
        Err(no) => ("not opened", no.disk),
        Ok(volume) => {
            let mut volume = volume;
            let said = match volume.root_pages().first() {
                None => "no root",
                Some(page) => {
                    let page = *page;
                    patch(&mut volume, page, 2)
                }
            };
            (said, volume.into_disk())
        }
    }
}

// The patch of a new volume's log.
fn patch_log(alloc: Global, trouble: Trouble) -> Result<(&'static str, MemoryDisk), VolumeFault> {
    let mut volume = new_volume(alloc, trouble)?;
    let said = patch(&mut volume, LOG_PAGE, 100);
    Ok((said, volume.into_disk()))
}

fn trouble_of(given: &str) -> Option<Trouble> {
    match given.split_once(' ')? {
        ("stop", call) => Some(Trouble::Stop(call.parse::<u64>().ok()?)),
        ("fault", call) => Some(Trouble::Fault(call.parse::<u64>().ok()?)),
        _ => None,
    }
}

fn patch_with(
    alloc: Global,
    what: &str,
    trouble: Trouble,
) -> Result<(&'static str, MemoryDisk), VolumeFault> {
    if what == "log" {
        return patch_log(alloc, trouble);
    }
    let image = new_image(alloc)?;
    Ok(patch_root(alloc, disk_with(alloc, image.items(), trouble)?))
}

// What stands at the patched place, or all that an image says where anything else changed.
fn part_of<'a>(what: &str, said: &'a str) -> &'a str {
    if what == "log" {
        return said
            .strip_prefix("1: an empty catalogue's root; 65472")
            .unwrap_or(said);
    }
    let rest = said.strip_prefix("1: an").unwrap_or(said);
    rest.strip_suffix("mpty catalogue's root; 65472")
        .unwrap_or(said)
}

// What each picked image has at the patched place.
fn parts_left(alloc: Global, what: &str, disk: &MemoryDisk) -> Result<String, OutOfMemory> {
    let mut text = String::new(alloc);
    for pick in PICKS {
        let said = left_said(alloc, disk, pick)?;
        text.push_str(part_of(what, said.as_str()))?;
        text.push('|')?;
    }
    Ok(text)
}

fn images_said(alloc: Global, what: &str, trouble: Trouble) -> Result<String, VolumeFault> {
    let (said, disk) = patch_with(alloc, what, trouble)?;
    let parts = parts_left(alloc, what, &disk)?;
    Ok(format!(in alloc; "{said}: {}", parts.as_str())?)
}

// Rows of the chain that is patched, and a stop: what is answered, and what stands at the patched
// place in the images that are left, of which each opens, and nowhere else differs.
struct Images;

impl Table for Images {
    fn told(alloc: Global, given: &str) -> Result<String, Fail> {
        let (what, trouble) = given.split_once(' ').ok_or("a chain")?;
        let trouble = trouble_of(trouble).ok_or("a stop")?;
        Ok(images_said(alloc, what, trouble)?)
    }
}

// Opening makes 6 calls and a new volume 27; the patch makes one, and the sync one.
#[test]
fn a_stop_at_each_call_of_a_patch(rt: HostRuntime) -> Result<(), Fail> {
    const ROWS: &str = "\
root stop 0 => not opened:  e| e| e| e|
root stop 1 => not opened:  e| e| e| e|
root stop 2 => not opened:  e| e| e| e|
root stop 3 => not opened:  e| e| e| e|
root stop 4 => not opened:  e| e| e| e|
root stop 5 => not opened:  e| e| e| e|
root stop 6 => patch refused:  e| e|ZZ|\0\0|
root stop 7 => sync refused:  e|XY|ZZ|\0\0|
root stop 8 => done: XY|XY|XY|XY|
root stop 9 => done: XY|XY|XY|XY|
log stop 27 => patch refused: || 100=90 101=90||
log stop 28 => sync refused: | 100=88 101=89| 100=90 101=90||
log stop 29 => done:  100=88 101=89| 100=88 101=89| 100=88 101=89| 100=88 101=89|";
    assert_eq!(rt; unmet::<Images>(rt.alloc(), ROWS)?.as_str(), "");
    Ok(())
}

fn read_said(alloc: Global, what: &str, trouble: Trouble) -> Result<String, VolumeFault> {
    let (said, disk) = patch_with(alloc, what, trouble)?;
    let read = said_of(alloc, disk)?;
    Ok(format!(in alloc; "{said}: {}", read.as_str())?)
}

// Rows of the chain that is patched, and a fault: what is answered, and what is read where the disk
// is opened again.
struct Reads;

impl Table for Reads {
    fn told(alloc: Global, given: &str) -> Result<String, Fail> {
        let (what, trouble) = given.split_once(' ').ok_or("a chain")?;
        let trouble = trouble_of(trouble).ok_or("a fault")?;
        Ok(read_said(alloc, what, trouble)?)
    }
}

#[test]
fn a_fault_at_each_call_of_a_patch(rt: HostRuntime) -> Result<(), Fail> {
    const ROWS: &str = "\
root fault 0 => not opened: 1: an empty catalogue's root; 65472
root fault 1 => not opened: 1: an empty catalogue's root; 65472
root fault 2 => not opened: 1: an empty catalogue's root; 65472
root fault 3 => not opened: 1: an empty catalogue's root; 65472
root fault 4 => not opened: 1: an empty catalogue's root; 65472
root fault 5 => not opened: 1: an empty catalogue's root; 65472
root fault 6 => patch refused: 1: an empty catalogue's root; 65472
root fault 7 => sync refused: 1: anXYmpty catalogue's root; 65472
root fault 99 => done: 1: anXYmpty catalogue's root; 65472
log fault 27 => patch refused: 1: an empty catalogue's root; 65472
log fault 28 => sync refused: 1: an empty catalogue's root; 65472 100=88 101=89
log fault 99 => done: 1: an empty catalogue's root; 65472 100=88 101=89";
    assert_eq!(rt; unmet::<Reads>(rt.alloc(), ROWS)?.as_str(), "");
    Ok(())
}
