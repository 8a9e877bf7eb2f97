ghost use Rattle.std.specs.Prelude.{◌≡◌, ◌↔◌, ◌-◌, ℕ, List, IfOk, IsErrOf, IsTrue, length};
ghost use Rattle.ci_io.specs.Causes.{Rose};
ghost use Rattle.ci_device.specs.Images.{Only};
ghost use Rattle.ci_pages.specs.Tables.{AllData};
ghost use Rattle.ci_volume.specs.Chain.{IsChain, pages_for};
ghost use Rattle.ci_volume.specs.Found.{IsTold};
ghost use Rattle.ci_volume.specs.Opening.{IsBounded, Opens, OpensToNothing};
ghost use Rattle.ci_volume.specs.Steps.{EachLeft, StandsBeside, Stays};
ghost use Rattle.ci_volume.specs.declared.fault.VolumeFault.TheVariants.{DiskFault, NotACatalogue, VolumeFull};

use crate::chains::{Bounds, walk};
use crate::current::find_current;
use crate::stable::make_stable;
use crate::told::Current;
use crate::{Slot, VolumeFault};
use ci_device::Disk;
use std::alloc::Global;

/// Generations are below 2^62, so that numbering never ends.
const GENERATIONS: u64 = 1 << 62;

/// A volume has at least 256 KiB, and at most 1 GiB.
const LEAST_PAGES: u32 = 64;

const MOST_PAGES: u32 = 262_144;

/// The current generation, and the pages of its root.
#[derive(Drop)]
pub(crate) struct Opened {
    pub current: Current,
    pub root: Vec<u32>,
}

/// Makes the image stable, and finds what it opens to.
pub(crate) fn open_image<D: Disk>(disk: &mut D, alloc: Global) -> Result<Opened, VolumeFault>
    ensures ok { IfOk result (λ opened. IsTrue (D.honest disk.old) → Opens (D.seen disk.old)
        opened.current.which opened.current.slot opened.root.items) }
    ensures told { IfOk result (λ opened. IsTrue (D.honest disk.old)
        → IsTold (D.seen disk.old) opened.current) }
    ensures data_pages { IfOk result (λ opened.
        AllData opened.current.slot.pages opened.root.items) }
    ensures bounded { IfOk result (λ opened. IsBounded opened.current.slot) }
    // A change of generation may follow.
    ensures ready { IfOk result (λ opened. IsTrue (D.honest disk.old)
        → EachLeft (D.may_leave disk.new) (StandsBeside opened.current.may_be_open
        (1 - opened.current.which) opened.current.slot opened.root.items (D.seen disk.old))) }
    ensures nothing { IsErrOf result NotACatalogue → IsTrue (D.honest disk.old)
        → OpensToNothing (D.seen disk.old) }
    ensures stable { IfOk result (λ _. IsTrue (D.honest disk.old)
        → Only (D.seen disk.new) (D.may_leave disk.new)) }
    ensures stays { Stays D.seen D.may_leave D.moment D.left_since D.honest disk.old disk.new }
    ensures failed { IsErrOf result DiskFault → Rose (D.faults disk.old) (D.faults disk.new) }
    ensures never_full { (needed free : ℕ) → ¬ IsErrOf result (VolumeFull needed free) }
{
    make_stable(disk)?;
    let opened = find_generation(disk, alloc)?;
    Ok(opened)
}

fn find_generation<D: Disk>(disk: &mut D, alloc: Global) -> Result<Opened, VolumeFault>
    ensures ok { IfOk result (λ opened. IsTrue (D.honest disk.old) → Opens (D.seen disk.old)
        opened.current.which opened.current.slot opened.root.items) }
    ensures told { IfOk result (λ opened. IsTrue (D.honest disk.old)
        → IsTold (D.seen disk.old) opened.current) }
    ensures data_pages { IfOk result (λ opened.
        AllData opened.current.slot.pages opened.root.items) }
    ensures bounded { IfOk result (λ opened. IsBounded opened.current.slot) }
    ensures nothing { IsErrOf result NotACatalogue → IsTrue (D.honest disk.old)
        → OpensToNothing (D.seen disk.old) }
    ensures stays { Stays D.seen D.may_leave D.moment D.left_since D.honest disk.old disk.new }
    ensures failed { IsErrOf result DiskFault → Rose (D.faults disk.old) (D.faults disk.new) }
    ensures never_full { (needed free : ℕ) → ¬ IsErrOf result (VolumeFull needed free) }
{
    match find_current(disk)? {
        None => Err(VolumeFault::NotACatalogue),
        Some(current) => {
            let root = find_root(disk, alloc, current)?;
            Ok(Opened { current, root })
        }
    }
}

fn find_root<D: Disk>(
    disk: &mut D,
    alloc: Global,
    current: Current,
) -> Result<Vec<u32>, VolumeFault>
    requires { IsTrue (D.honest disk.old) → IsTold (D.seen disk.old) current }
    ensures ok { IfOk result (λ root. IsTrue (D.honest disk.old) → Opens (D.seen disk.old)
        current.which current.slot root.items) }
    ensures data_pages { IfOk result (λ root. AllData current.slot.pages root.items) }
    ensures bounded { IfOk result (λ _. IsBounded current.slot) }
    ensures nothing { IsErrOf result NotACatalogue → IsTrue (D.honest disk.old)
        → OpensToNothing (D.seen disk.old) }
    ensures stays { Stays D.seen D.may_leave D.moment D.left_since D.honest disk.old disk.new }
    ensures failed { IsErrOf result DiskFault → Rose (D.faults disk.old) (D.faults disk.new) }
    ensures never_full { (needed free : ℕ) → ¬ IsErrOf result (VolumeFull needed free) }
{
    let slot = current.slot;
    if !is_bounded(slot) {
        return Err(VolumeFault::NotACatalogue);
    }
    let bounds = Bounds {
        pages: slot.pages,
        size: current.length,
    };
    let root = walk(disk, alloc, bounds, slot.root, page_count(slot.length))?;
    Ok(root)
}

fn is_bounded(slot: Slot) -> bool
    ensures { IsTrue result ↔ IsBounded slot }
{
    slot.generation < GENERATIONS
        && LEAST_PAGES <= slot.pages
        && slot.pages <= MOST_PAGES
        && 0 < slot.length
}

/// How many pages a chain of so many bytes has.
pub(crate) fn page_count(size: u32) -> u32
    ensures { result ≡ pages_for size }
{
    ((u64::from(size) + 4091) / 4092) as u32
}
