//! Chains that are written into a new volume, and chains that it lets go.

ghost use Rattle.std.specs.Prelude.{◌≡◌, ◌<◌, [], ◌∷◌, length};
ghost use Rattle.ci_volume.specs.Tables.{IsOnce};
ghost use Rattle.ci_volume.specs.Uses.{use_of};
ghost use Rattle.ci_volume.specs.PageUse.TheVariants.{Held};
ghost use Rattle.ci_volume.specs.Accounts.{unused_pages};

use crate::new_volumes::given;
use crate::table::{Table, unmet};
use crate::volumes::{LOG_PAGE, Trouble, new_volume, sure_disk};
use ci_base::Text8;
use ci_device::{MemoryDisk, Pick};
use ci_volume::{Header, Volume, VolumeFault};
use std::alloc::{AllocError, Global};
use std::test::Fail;

// Goes to the second generation.
fn commit(alloc: Global, volume: &mut Volume<MemoryDisk>) -> Result<(), VolumeFault>
    requires unused { unused_pages volume.old.table ≡ [] }
    requires once { IsOnce volume.old.table.pending.items }
    requires generation { volume.old.slot.generation ≡ 1 }
    requires root { volume.old.root.items ≡ 3 ∷ [] }
    requires held { use_of volume.old.table.uses.pages.items 3 ≡ Held }
{
    let root = Text8::of(alloc, b"the second root")?;
    volume.reserve_pages(alloc, 1)?;
    volume.commit(alloc, &Header { root })
}

// How many pages are free, and which of them are given out first.
fn free_said(alloc: Global, volume: &mut Volume<MemoryDisk>) -> Result<String, AllocError> {
    let free = volume.free();
    let pages = given(alloc, volume, 3)?;
    format!(in alloc; "{free} free, first {}", pages.as_str())
}

fn commit_said(alloc: Global, volume: &mut Volume<MemoryDisk>) -> Result<String, AllocError>
    requires unused { unused_pages volume.old.table ≡ [] }
    requires once { IsOnce volume.old.table.pending.items }
    requires generation { volume.old.slot.generation ≡ 1 }
    requires root { volume.old.root.items ≡ 3 ∷ [] }
    requires held { use_of volume.old.table.uses.pages.items 3 ≡ Held }
{
    let done = commit(alloc, volume).is_ok();
    let free = free_said(alloc, volume)?;
    let answer = if done { "done" } else { "refused" };
    format!(in alloc; "{answer}: {}", free.as_str())
}

fn kept(alloc: Global) -> Result<String, VolumeFault> {
    let mut volume = new_volume(alloc, Trouble::Never)?;
    Ok(commit_said(alloc, &mut volume)?)
}

fn let_go(alloc: Global) -> Result<String, VolumeFault> {
    let mut volume = new_volume(alloc, Trouble::Never)?;
    volume.let_go(LOG_PAGE);
    Ok(free_said(alloc, &mut volume)?)
}

fn let_go_and_committed(alloc: Global, trouble: Trouble) -> Result<String, VolumeFault> {
    let mut volume = new_volume(alloc, trouble)?;
    volume.let_go(LOG_PAGE);
    Ok(commit_said(alloc, &mut volume)?)
}

// Rows of what is done to a new volume and the call that fails: what is answered, and what is free
// behind it.
struct Accounts;

fn account_said(alloc: Global, what: &str, fault: u64) -> Result<String, VolumeFault> {
    match what {
        "commit" => kept(alloc),
        "let go" => let_go(alloc),
        _ => let_go_and_committed(alloc, Trouble::Fault(fault)),
    }
}

impl Table for Accounts {
    fn told(alloc: Global, given: &str) -> Result<String, Fail> {
        let (what, fault) = given.split_once(" | ").ok_or("a call")?;
        let fault = fault.parse::<u64>().unwrap_or(u64::MAX);
        Ok(account_said(alloc, what, fault)?)
    }
}

// The new volume makes 27 calls and the commit 7, of which the last two open the gate. The log's
// pages, 4 to 19, are free where they were let go and the commit was acknowledged.
#[test]
fn pages_that_are_let_go(rt: HostRuntime) -> Result<(), Fail> {
    const ROWS: &str = "\
commit | - => done: 44 free, first 3 21 22
let go | - => 44 free, first 20 21 22
let go, commit | - => done: 60 free, first 3 4 5
let go, commit | 27 => refused: 43 free, first 21 22 23
let go, commit | 28 => refused: 43 free, first 21 22 23
let go, commit | 29 => refused: 43 free, first 21 22 23
let go, commit | 30 => refused: 43 free, first 21 22 23
let go, commit | 31 => refused: 43 free, first 21 22 23
let go, commit | 32 => refused: 43 free, first 21 22 23
let go, commit | 33 => refused: 43 free, first 21 22 23
let go, commit | 34 => done: 60 free, first 3 4 5";
    assert_eq!(rt; unmet::<Accounts>(rt.alloc(), ROWS)?.as_str(), "");
    Ok(())
}

// So many bytes, each the next number.
fn numbered(alloc: Global, count: usize) -> Result<Vec<u8>, AllocError> {
    let mut bytes = Vec::new(alloc);
    let mut byte = 1u8;
    for _ in 0..count {
        bytes.push(byte)?;
        byte = byte.wrapping_add(1);
    }
    Ok(bytes)
}

// Writes a chain, and reads it before it is committed.
fn written(
    alloc: Global,
    volume: &mut Volume<MemoryDisk>,
    bytes: &[u8],
) -> Result<Text8, VolumeFault>
    requires some { 0 < length bytes.now }
    requires small { length bytes.now < 100000 }
{
    let pages = volume.reserve_pages(alloc, bytes.len().div_ceil(4092) as u32)?;
    volume.write_run(&pages, bytes)?;
    volume.read_run(alloc, pages[0], bytes.len() as u32)
}

// Writes a chain, and goes to the next generation, which names it.
fn committed(
    alloc: Global,
    volume: &mut Volume<MemoryDisk>,
    bytes: &[u8],
) -> Result<(), VolumeFault>
    requires some { 0 < length bytes.now }
    requires small { length bytes.now < 100000 }
    requires unused { unused_pages volume.old.table ≡ [] }
    requires once { IsOnce volume.old.table.pending.items }
    requires generation { volume.old.slot.generation ≡ 1 }
    requires root { volume.old.root.items ≡ 3 ∷ [] }
    requires held { use_of volume.old.table.uses.pages.items 3 ≡ Held }
{
    let pages = volume.reserve_pages(alloc, bytes.len().div_ceil(4092) as u32)?;
    volume.write_run(&pages, bytes)?;
    commit(alloc, volume)
}

fn same(read: &[u8], wanted: &[u8]) -> &'static str {
    if read == wanted {
        "as written"
    } else {
        "otherwise"
    }
}

fn read_at_once(alloc: Global, bytes: &[u8]) -> Result<&'static str, VolumeFault>
    requires some { 0 < length bytes.now }
    requires small { length bytes.now < 100000 }
{
    let mut volume = new_volume(alloc, Trouble::Never)?;
    let read = written(alloc, &mut volume, bytes)?;
    Ok(same(read.items(), bytes))
}

// The image of the generation that names a chain.
fn image_with(alloc: Global, bytes: &[u8]) -> Result<Text8, VolumeFault>
    requires some { 0 < length bytes.now }
    requires small { length bytes.now < 100000 }
{
    let mut volume = new_volume(alloc, Trouble::Never)?;
    committed(alloc, &mut volume, bytes)?;
    Ok(volume.into_disk().left(alloc, Pick::New)?)
}

// The bytes of the chain that begins behind the log.
fn chain_in(alloc: Global, image: Text8, size: u32) -> Result<Text8, VolumeFault>
    requires some { 0 < size }
{
    match Volume::open(alloc, sure_disk(alloc, image)?) {
        Ok(volume) => {
            let mut volume = volume;
            volume.read_run(alloc, 20, size)
        }
        Err(no) => Err(no.fault),
    }
}

fn read_again(alloc: Global, bytes: &[u8]) -> Result<&'static str, VolumeFault>
    requires some { 0 < length bytes.now }
    requires small { length bytes.now < 100000 }
{
    let image = image_with(alloc, bytes)?;
    let read = chain_in(alloc, image, bytes.len() as u32)?;
    Ok(same(read.items(), bytes))
}

fn stored(alloc: Global, bytes: &[u8]) -> Result<String, VolumeFault> {
    if bytes.is_empty() || bytes.len() >= 100_000 {
        return Ok(String::from_str(alloc, "no chain")?);
    }
    let first = read_at_once(alloc, bytes)?;
    let then = read_again(alloc, bytes)?;
    Ok(format!(in alloc; "{first}, {then}")?)
}

// Rows of how many bytes a chain has: whether it is read as it was written, before the commit that
// names it, and when the image is opened again.
struct Chains;

impl Table for Chains {
    fn told(alloc: Global, given: &str) -> Result<String, Fail> {
        let count = given.parse::<usize>().ok().ok_or("a number")?;
        let bytes = numbered(alloc, count)?;
        Ok(stored(alloc, &bytes)?)
    }
}

#[test]
fn chains_that_are_written(rt: HostRuntime) -> Result<(), Fail> {
    const ROWS: &str = "\
1 => as written, as written
4092 => as written, as written
4093 => as written, as written
5000 => as written, as written
8184 => as written, as written
8185 => as written, as written
60000 => as written, as written";
    assert_eq!(rt; unmet::<Chains>(rt.alloc(), ROWS)?.as_str(), "");
    Ok(())
}
