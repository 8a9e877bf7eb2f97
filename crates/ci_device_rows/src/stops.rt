//! A new volume and a commit, with a stop or a fault at each call.

use crate::volumes::{
    Trouble, committed, created, disk_with, new_image, said_of, sure_disk, was_never,
};
use ci_base::{OutOfMemory, Text8};
use ci_device::{MemoryDisk, Pick};
use std::alloc::Global;
use std::test::Fail;

/// What a stop may leave: what was synced, what reads, and fillings of what is between.
pub(crate) const PICKS: [Pick; 4] = [Pick::Old, Pick::New, Pick::Filled(0x5A), Pick::Filled(0)];

// What a picked image opens to: its root and its log.
pub(crate) fn left_said(
    alloc: Global,
    disk: &MemoryDisk,
    pick: Pick,
) -> Result<String, OutOfMemory> {
    Ok(said_of(alloc, sure_disk(alloc, disk.left(alloc, pick)?)?)?)
}

// A call that goes from what one image says to what another says.
trait Going {
    /// What an image says before the call, and behind it.
    fn says() -> (&'static str, &'static str);

    // The call over an image, and whether it was acknowledged.
    fn go(alloc: Global, image: &[u8], trouble: Trouble) -> Result<(bool, MemoryDisk), OutOfMemory>;
}

// Whether a picked image says what stood before or what stands after, and this where the call was
// acknowledged.
fn is_either<G: Going>(
    alloc: Global,
    disk: &MemoryDisk,
    done: bool,
    pick: Pick,
) -> Result<bool, OutOfMemory> {
    let (before, after) = G::says();
    let said = left_said(alloc, disk, pick)?;
    if said.as_str() == after {
        return Ok(true);
    }
    Ok(!done && said.as_str() == before && is_opened_or_fresh(alloc, disk, pick, before)?)
}

// An image that opens to nothing is to be fresh.
fn is_opened_or_fresh(
    alloc: Global,
    disk: &MemoryDisk,
    pick: Pick,
    said: &str,
) -> Result<bool, OutOfMemory> {
    Ok(said != NOTHING || was_never(alloc, disk.left(alloc, pick)?)?)
}

fn is_right<G: Going>(alloc: Global, image: &[u8], trouble: Trouble) -> Result<bool, OutOfMemory> {
    let (done, disk) = G::go(alloc, image, trouble)?;
    for pick in PICKS {
        if !is_either::<G>(alloc, &disk, done, pick)? {
            return Ok(false);
        }
    }
    Ok(true)
}

// The stops that leave anything else.
fn wrong_stops<G: Going>(alloc: Global, image: &[u8]) -> Result<String, Fail> {
    let mut found = String::new(alloc);
    for call in 0..32 {
        if !is_right::<G>(alloc, image, Trouble::Stop(call))? {
            write!(found, "{call} ")?;
        }
    }
    Ok(found)
}

// The faults that do.
fn wrong_faults<G: Going>(alloc: Global, image: &[u8]) -> Result<String, Fail> {
    let mut found = String::new(alloc);
    for call in 0..32 {
        if !is_right::<G>(alloc, image, Trouble::Fault(call))? {
            write!(found, "{call} ")?;
        }
    }
    Ok(found)
}

fn is_done<G: Going>(alloc: Global, image: &[u8], trouble: Trouble) -> Result<bool, OutOfMemory> {
    let (done, _disk) = G::go(alloc, image, trouble)?;
    Ok(done)
}

// The faults with which the call is acknowledged.
fn acknowledged<G: Going>(alloc: Global, image: &[u8]) -> Result<String, Fail> {
    let mut found = String::new(alloc);
    for call in 0..32 {
        if is_done::<G>(alloc, image, Trouble::Fault(call))? {
            write!(found, "{call} ")?;
        }
    }
    Ok(found)
}

const NOTHING: &str = "none";

const FIRST: &str = "1: an empty catalogue's root; 65472";

const SECOND: &str = "2: the second root; 65472";

const THIRD: &str = "3: the third root; 65472";

struct Creation;

impl Going for Creation {
    fn says() -> (&'static str, &'static str) {
        (NOTHING, FIRST)
    }

    fn go(
        alloc: Global,
        image: &[u8],
        trouble: Trouble,
    ) -> Result<(bool, MemoryDisk), OutOfMemory> {
        Ok(created(alloc, disk_with(alloc, image, trouble)?))
    }
}

// No bytes, fewer than a head has, a head, and a head with more behind it.
const FRESH: [&[u8]; 5] = [
    b"",
    b"CICAT",
    b"garbage!",
    b"CICAT1\0\0",
    b"CICAT1\0\x01 and more",
];

#[test]
fn a_stop_at_each_call_of_a_new_volume(rt: HostRuntime) -> Result<(), Fail> {
    for bytes in FRESH {
        assert_eq!(rt; wrong_stops::<Creation>(rt.alloc(), bytes)?.as_str(), "");
    }
    Ok(())
}

#[test]
fn a_fault_at_each_call_of_a_new_volume(rt: HostRuntime) -> Result<(), Fail> {
    let alloc = rt.alloc();
    assert_eq!(rt; wrong_faults::<Creation>(alloc, b"")?.as_str(), "");
    assert_eq!(rt;
        acknowledged::<Creation>(alloc, b"")?.as_str(),
        "27 28 29 30 31 "
    );
    Ok(())
}

fn commit_with(
    alloc: Global,
    image: &[u8],
    root: &[u8],
    trouble: Trouble,
) -> Result<(bool, MemoryDisk), OutOfMemory> {
    let disk = disk_with(alloc, image, trouble)?;
    Ok(committed(alloc, disk, Text8::of(alloc, root)?))
}

// The first commit of a volume, whose second gate is shut.
struct FirstCommit;

impl Going for FirstCommit {
    fn says() -> (&'static str, &'static str) {
        (FIRST, SECOND)
    }

    fn go(
        alloc: Global,
        image: &[u8],
        trouble: Trouble,
    ) -> Result<(bool, MemoryDisk), OutOfMemory> {
        commit_with(alloc, image, b"the second root", trouble)
    }
}

// The one behind it, in which both gates are open.
struct NextCommit;

impl Going for NextCommit {
    fn says() -> (&'static str, &'static str) {
        (SECOND, THIRD)
    }

    fn go(
        alloc: Global,
        image: &[u8],
        trouble: Trouble,
    ) -> Result<(bool, MemoryDisk), OutOfMemory> {
        commit_with(alloc, image, b"the third root", trouble)
    }
}

fn second_image(alloc: Global, image: &[u8]) -> Result<Text8, OutOfMemory> {
    let (_, disk) = FirstCommit::go(alloc, image, Trouble::Never)?;
    disk.left(alloc, Pick::New)
}

#[test]
fn a_stop_at_each_call_of_a_commit(rt: HostRuntime) -> Result<(), Fail> {
    let alloc = rt.alloc();
    let first = new_image(alloc)?;
    assert_eq!(rt;
        wrong_stops::<FirstCommit>(alloc, first.items())?.as_str(),
        ""
    );
    let second = second_image(alloc, first.items())?;
    assert_eq!(rt;
        wrong_stops::<NextCommit>(alloc, second.items())?.as_str(),
        ""
    );
    Ok(())
}

// Opening makes 6 calls, holding the log 16, and the commit 7.
#[test]
fn a_fault_at_each_call_of_a_commit(rt: HostRuntime) -> Result<(), Fail> {
    let alloc = rt.alloc();
    let first = new_image(alloc)?;
    assert_eq!(rt;
        wrong_faults::<FirstCommit>(alloc, first.items())?.as_str(),
        ""
    );
    assert_eq!(rt;
        acknowledged::<FirstCommit>(alloc, first.items())?.as_str(),
        "29 30 31 "
    );
    let second = second_image(alloc, first.items())?;
    assert_eq!(rt;
        wrong_faults::<NextCommit>(alloc, second.items())?.as_str(),
        ""
    );
    Ok(())
}
