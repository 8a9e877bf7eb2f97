//! Volumes, and what their images say.

ghost use Rattle.std.specs.Prelude.{◌≡◌, [], ◌∷◌, IfOk, IsTrue, length};
ghost use Rattle.std.specs.List.{range_with_len};
ghost use Rattle.ci_volume.specs.Tables.{IsHeldChain};
ghost use Rattle.ci_volume.specs.Uses.{use_of};
ghost use Rattle.ci_volume.specs.PageUse.TheVariants.{Held};

use ci_base::{OutOfMemory, Text8};
use ci_device::{Disk, MemoryDisk, Pick, SureMemoryDisk};
use ci_volume::{Header, Volume, VolumeFault, is_fresh};
use std::alloc::{AllocError, Global};

/// The root of a new volume, in page 3. Its log begins at page 4.
pub(crate) const ROOT: &[u8] = b"an empty catalogue's root";

pub(crate) const LOG_PAGE: u32 = 4;

pub(crate) const LOG_BYTES: u32 = 16 * 4092;

/// More than the calls of any test write.
const ROOM: usize = 400_000;

pub(crate) fn refusal(fault: VolumeFault) -> &'static str {
    match fault {
        VolumeFault::DiskFault => "disk",
        VolumeFault::NotACatalogue => "none",
        VolumeFault::VolumeFull { .. } => "full",
        VolumeFault::OutOfMemory => "memory",
    }
}

/// A call at which a disk stops, or which fails.
#[derive(Clone, Copy)]
pub(crate) enum Trouble {
    Stop(u64),
    Fault(u64),
    Never,
}

// A disk with these bytes, where some calls fail and all behind a stop.
fn disk_of(
    alloc: Global,
    bytes: &[u8],
    fails: &[u64],
    stop: u64,
) -> Result<MemoryDisk, OutOfMemory> {
    let fails = Vec::from_slice(alloc, fails)?;
    MemoryDisk::new(alloc, Text8::of(alloc, bytes)?, fails, stop, ROOM)
}

pub(crate) fn disk_with(
    alloc: Global,
    bytes: &[u8],
    trouble: Trouble,
) -> Result<MemoryDisk, OutOfMemory> {
    match trouble {
        Trouble::Stop(call) => disk_of(alloc, bytes, &[], call),
        Trouble::Fault(call) => disk_of(alloc, bytes, &[call], u64::MAX),
        Trouble::Never => disk_of(alloc, bytes, &[], u64::MAX),
    }
}

pub(crate) fn sure_disk(alloc: Global, bytes: Text8) -> Result<SureMemoryDisk, OutOfMemory> {
    let room = bytes.items().len().saturating_add(ROOM);
    SureMemoryDisk::new(alloc, bytes, room)
}

/// A new volume of 64 pages. Its root is in page 3, and its log in the sixteen behind it.
pub(crate) fn new_volume(alloc: Global, trouble: Trouble) -> Result<Volume<MemoryDisk>, VolumeFault>
    ensures pending { IfOk result (λ v. v.table.pending.items ≡ []) }
    ensures generation { IfOk result (λ v. v.slot.generation ≡ 1) }
    ensures root { IfOk result (λ v. v.root.items ≡ 3 ∷ []) }
    ensures held { IfOk result (λ v. use_of v.table.uses.pages.items 3 ≡ Held) }
    ensures log { IfOk result (λ v. IsHeldChain v.table.links.items v.table.uses.pages.items 4
        (range_with_len 4 16)) }
{
    let mut disk = disk_with(alloc, &[], trouble)?;
    if !is_fresh(&mut disk)? {
        return Err(VolumeFault::NotACatalogue);
    }
    match Volume::create(alloc, disk, 64, ROOT) {
        Ok(volume) => Ok(volume),
        Err(no) => Err(no.fault),
    }
}

// A new volume of 64 pages, where the disk is fresh; and whether it was made.
pub(crate) fn created<D: Disk>(alloc: Global, disk: D) -> (bool, D) {
    let mut disk = disk;
    match is_fresh(&mut disk) {
        Ok(true) => match Volume::create(alloc, disk, 64, ROOT) {
            Ok(volume) => (true, volume.into_disk()),
            Err(no) => (false, no.disk),
        },
        _ => (false, disk),
    }
}

// The image of a new volume.
pub(crate) fn new_image(alloc: Global) -> Result<Text8, OutOfMemory> {
    let (_, disk) = created(alloc, disk_with(alloc, &[], Trouble::Never)?);
    disk.left(alloc, Pick::New)
}

// Opens a volume, holds its log, and goes to a next generation with this root; and whether that was
// acknowledged.
pub(crate) fn committed<D: Disk>(alloc: Global, disk: D, root: Text8) -> (bool, D) {
    match Volume::open(alloc, disk) {
        Err(no) => (false, no.disk),
        Ok(volume) => {
            let mut volume = volume;
            let size = root.items().len();
            if volume.generation() >= 5_000 || size == 0 || size > 4092 {
                return (false, volume.into_disk());
            }
            let done = match volume.hold(alloc, LOG_PAGE, LOG_BYTES) {
                Err(_) => false,
                Ok(()) => match volume.reserve_pages(alloc, 1) {
                    Err(_) => false,
                    Ok(_) => volume.commit(alloc, &Header { root }).is_ok(),
                },
            };
            (done, volume.into_disk())
        }
    }
}

pub(crate) fn as_text(alloc: Global, bytes: &[u8]) -> Result<String, AllocError> {
    let mut text = String::new(alloc);
    for byte in bytes {
        text.push(char::from(*byte))?;
    }
    Ok(text)
}

// How many bytes there are, and the places of those that aren't 0, with these.
fn marked(alloc: Global, bytes: &[u8]) -> Result<String, AllocError> {
    let mut text = format!(in alloc; "{}", bytes.len())?;
    for (at, byte) in bytes.iter().enumerate() {
        if *byte != 0 {
            text.push_str(format!(in alloc; " {at}={byte}")?.as_str())?;
        }
    }
    Ok(text)
}

// The generation and the bytes of the root.
fn root_said<D: Disk>(alloc: Global, volume: &mut Volume<D>) -> Result<String, AllocError>
    requires sized { IsTrue (D.honest volume.old.disk)
        → volume.old.size ≡ length (D.seen volume.old.disk) }
    ensures sized { IsTrue (D.honest volume.new.disk)
        → volume.new.size ≡ length (D.seen volume.new.disk) }
{
    let generation = volume.generation();
    let (first, size) = volume.root();
    if size == 0 {
        return String::from_str(alloc, "empty");
    }
    match volume.read_run(alloc, first, size) {
        Ok(bytes) => format!(in alloc; "{generation}: {}", as_text(alloc, bytes.items())?.as_str()),
        Err(fault) => String::from_str(alloc, refusal(fault)),
    }
}

// The bytes of the log.
fn log_said<D: Disk>(alloc: Global, volume: &mut Volume<D>) -> Result<String, AllocError>
    requires sized { IsTrue (D.honest volume.old.disk)
        → volume.old.size ≡ length (D.seen volume.old.disk) }
{
    match volume.read_run(alloc, LOG_PAGE, LOG_BYTES) {
        Ok(bytes) => marked(alloc, bytes.items()),
        Err(fault) => String::from_str(alloc, refusal(fault)),
    }
}

fn both_said<D: Disk>(alloc: Global, volume: &mut Volume<D>) -> Result<String, AllocError>
    requires sized { IsTrue (D.honest volume.old.disk)
        → volume.old.size ≡ length (D.seen volume.old.disk) }
{
    let root = root_said(alloc, volume)?;
    let log = log_said(alloc, volume)?;
    format!(in alloc; "{}; {}", root.as_str(), log.as_str())
}

/// What a disk opens to: its generation, the bytes of its root, and those of its log.
pub(crate) fn said_of<D: Disk + Drop>(alloc: Global, disk: D) -> Result<String, AllocError> {
    match Volume::open(alloc, disk) {
        Ok(volume) => {
            let mut volume = volume;
            both_said(alloc, &mut volume)
        }
        Err(no) => String::from_str(alloc, refusal(no.fault)),
    }
}

/// Whether an image was never a volume.
pub(crate) fn was_never(alloc: Global, image: Text8) -> Result<bool, OutOfMemory> {
    let mut disk = sure_disk(alloc, image)?;
    Ok(is_fresh(&mut disk).unwrap_or(false))
}
