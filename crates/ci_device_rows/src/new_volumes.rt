//! A new volume and its images: pages that are given out, and chains that are read and held.

ghost use Rattle.std.specs.Prelude.{◌≡◌, IsTrue, length};

use crate::table::{Table, unmet};
use crate::volumes::{ROOT, as_text, new_image, refusal, sure_disk};
use ci_base::{OutOfMemory, Text8};
use ci_device::{Disk, SureMemoryDisk};
use ci_volume::{Volume, VolumeFault, is_fresh};
use std::alloc::{AllocError, Global};
use std::test::Fail;

fn listed(alloc: Global, pages: &[u32]) -> Result<String, AllocError> {
    let mut text = String::new(alloc);
    for (at, page) in pages.iter().enumerate() {
        text.push_str(if at == 0 { "" } else { " " })?;
        text.push_str(format!(in alloc; "{page}")?.as_str())?;
    }
    Ok(text)
}

fn refused(alloc: Global, fault: VolumeFault) -> Result<String, AllocError> {
    match fault {
        VolumeFault::VolumeFull { needed, free } => {
            format!(in alloc; "{needed} needed, {free} free")
        }
        other => String::from_str(alloc, refusal(other)),
    }
}

pub(crate) fn given<D: Disk>(
    alloc: Global,
    volume: &mut Volume<D>,
    count: u32,
) -> Result<String, AllocError> {
    match volume.reserve_pages(alloc, count) {
        Ok(pages) => listed(alloc, &pages),
        Err(fault) => refused(alloc, fault),
    }
}

fn bytes_of<D: Disk>(
    alloc: Global,
    volume: &mut Volume<D>,
    first: u32,
    size: u32,
) -> Result<String, AllocError>
    requires { IsTrue (D.honest volume.old.disk)
        → volume.old.size ≡ length (D.seen volume.old.disk) }
{
    if size == 0 {
        return String::from_str(alloc, "nothing");
    }
    match volume.read_run(alloc, first, size) {
        Ok(bytes) => as_text(alloc, bytes.items()),
        Err(fault) => refused(alloc, fault),
    }
}

fn pages_of<D: Disk>(
    alloc: Global,
    volume: &mut Volume<D>,
    first: u32,
    size: u32,
) -> Result<String, AllocError>
    requires { IsTrue (D.honest volume.old.disk)
        → volume.old.size ≡ length (D.seen volume.old.disk) }
{
    if size == 0 {
        return String::from_str(alloc, "nothing");
    }
    match volume.chain(alloc, first, size) {
        Ok(pages) => listed(alloc, &pages),
        Err(fault) => refused(alloc, fault),
    }
}

fn held<D: Disk>(
    alloc: Global,
    volume: &mut Volume<D>,
    first: u32,
    size: u32,
) -> Result<String, AllocError>
    requires { IsTrue (D.honest volume.old.disk)
        → volume.old.size ≡ length (D.seen volume.old.disk) }
{
    if size == 0 {
        return String::from_str(alloc, "nothing");
    }
    match volume.hold(alloc, first, size) {
        Ok(()) => String::from_str(alloc, "held"),
        Err(fault) => refused(alloc, fault),
    }
}

// A call's word, a page, and a number.
#[derive(Clone, Copy)]
pub(crate) struct Call<'a> {
    pub word: &'a str,
    pub first: u32,
    pub size: u32,
}

fn call_of(given: &str) -> Option<Call<'_>> {
    let (word, rest) = given.split_once(' ')?;
    let (first, size) = rest.split_once(' ')?;
    let first = first.parse::<u32>().ok()?;
    let size = size.parse::<u32>().ok()?;
    Some(Call { word, first, size })
}

// What a call on a volume says.
fn ask<D: Disk>(alloc: Global, volume: &mut Volume<D>, call: Call<'_>) -> Result<String, AllocError>
    requires { IsTrue (D.honest volume.old.disk)
        → volume.old.size ≡ length (D.seen volume.old.disk) }
{
    match call.word {
        "free" => format!(in alloc; "{}", volume.free()),
        "give" => given(alloc, volume, call.size),
        "read" => bytes_of(alloc, volume, call.first, call.size),
        "pages" => pages_of(alloc, volume, call.first, call.size),
        "hold" => held(alloc, volume, call.first, call.size),
        _ => String::from_str(alloc, "no call"),
    }
}

fn made(alloc: Global, disk: SureMemoryDisk, call: Call<'_>) -> Result<String, AllocError> {
    let mut disk = disk;
    match is_fresh(&mut disk) {
        Ok(true) => match Volume::create(alloc, disk, 64, ROOT) {
            Ok(volume) => {
                let mut volume = volume;
                ask(alloc, &mut volume, call)
            }
            Err(no) => refused(alloc, no.fault),
        },
        _ => String::from_str(alloc, "not fresh"),
    }
}

// A call on a volume that was made this moment.
fn on_new(alloc: Global, call: Call<'_>) -> Result<String, OutOfMemory> {
    Ok(made(alloc, sure_disk(alloc, Text8::new(alloc))?, call)?)
}

fn opened(alloc: Global, disk: SureMemoryDisk, call: Call<'_>) -> Result<String, AllocError> {
    match Volume::open(alloc, disk) {
        Ok(volume) => {
            let mut volume = volume;
            ask(alloc, &mut volume, call)
        }
        Err(no) => refused(alloc, no.fault),
    }
}

// A call on the volume that an image opens to.
pub(crate) fn on_image(alloc: Global, image: Text8, call: Call<'_>) -> Result<String, OutOfMemory> {
    Ok(opened(alloc, sure_disk(alloc, image)?, call)?)
}

// Rows of calls on a new volume.
struct NewVolume;

impl Table for NewVolume {
    fn told(alloc: Global, given: &str) -> Result<String, Fail> {
        Ok(on_new(alloc, call_of(given).ok_or("a call")?)?)
    }
}

// Rows of calls on its image.
struct ItsImage;

impl Table for ItsImage {
    fn told(alloc: Global, given: &str) -> Result<String, Fail> {
        let call = call_of(given).ok_or("a call")?;
        Ok(on_image(alloc, new_image(alloc)?, call)?)
    }
}

#[test]
fn calls_on_a_new_volume(rt: HostRuntime) -> Result<(), Fail> {
    const ROWS: &str = "\
free 0 0 => 44
give 0 45 => 45 needed, 44 free
give 0 44 => 20 21 22 23 24 25 26 27 28 29 30 31 32 33 34 35 36 37 38 39 40 41 42 43 44 \
45 46 47 48 49 50 51 52 53 54 55 56 57 58 59 60 61 62 63
give 0 0 =>\x20
read 3 25 => an empty catalogue's root
read 3 2 => an
read 3 4093 => none
read 4 4092 => none
read 63 1 => none
read 2 1 => none
pages 4 65472 => 4 5 6 7 8 9 10 11 12 13 14 15 16 17 18 19
pages 4 65473 => none
hold 3 25 => none
hold 4 65472 => none";
    assert_eq!(rt; unmet::<NewVolume>(rt.alloc(), ROWS)?.as_str(), "");
    Ok(())
}

#[test]
fn calls_on_its_image(rt: HostRuntime) -> Result<(), Fail> {
    const ROWS: &str = "\
free 0 0 => 60
give 0 45 => 4 5 6 7 8 9 10 11 12 13 14 15 16 17 18 19 20 21 22 23 24 25 26 27 28 \
29 30 31 32 33 34 35 36 37 38 39 40 41 42 43 44 45 46 47 48
give 0 44 => 4 5 6 7 8 9 10 11 12 13 14 15 16 17 18 19 20 21 22 23 24 25 26 27 28 \
29 30 31 32 33 34 35 36 37 38 39 40 41 42 43 44 45 46 47
give 0 0 =>\x20
read 3 25 => an empty catalogue's root
read 3 2 => an
read 3 4093 => none
read 4 4092 => none
read 63 1 => none
read 2 1 => none
pages 4 65472 => 4 5 6 7 8 9 10 11 12 13 14 15 16 17 18 19
pages 4 65473 => none
hold 3 25 => none
hold 4 65472 => held";
    assert_eq!(rt; unmet::<ItsImage>(rt.alloc(), ROWS)?.as_str(), "");
    Ok(())
}
