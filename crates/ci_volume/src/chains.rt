ghost use Rattle.std.specs.Prelude.{◌≡◌, ◌↔◌, ◌+◌, ◌*◌, ◌<◌, ◌≤◌, ℕ, List, IfOk, IsErrOf, IsTrue, length};
ghost use Rattle.ci_io.specs.Causes.{HasCause, Rose};
ghost use Rattle.ci_pages.specs.Tables.{AllData};
ghost use Rattle.ci_volume.specs.Chain.{IsChain, IsDataPage, next_of, pages_for};
ghost use Rattle.ci_volume.specs.Steps.{Stays};
ghost use Rattle.ci_volume.specs.declared.fault.VolumeFault.TheVariants.{DiskFault, NotACatalogue, VolumeFull};

use crate::VolumeFault;
use crate::reading::fetch;
use byteorder::{BigEndian, ByteOrder};
use ci_device::{Disk, Failed};
use std::alloc::Global;

/// A page of a volume: the next page's number, and then its content.
pub(crate) const PAGE_BYTES: u64 = 4096;

/// The pages that a volume has, and the bytes of its image.
#[derive(Clone, Copy)]
pub(crate) struct Bounds {
    pub pages: u32,
    pub size: u64,
}

/// Whether a page may hold a chain and lies within the image.
pub(crate) fn is_data_page(bounds: Bounds, page: u32) -> bool
    ensures image { (image : List ℕ) → bounds.size ≡ length image
        → (IsTrue result ↔ IsDataPage image bounds.pages page) }
    ensures bounds { IsTrue result → (3 ≤ page) × (page < bounds.pages) }
{
    3 <= page && page < bounds.pages && PAGE_BYTES * (u64::from(page) + 1) <= bounds.size
}

/// The number of the page that follows in a chain.
pub(crate) fn read_next<D: Disk>(disk: &mut D, page: u32) -> Result<u32, Failed>
    requires { IsTrue (D.honest disk.old) → PAGE_BYTES * (page + 1) ≤ length (D.seen disk.old) }
    ensures ok { IfOk result (λ next. IsTrue (D.honest disk.old)
        → next ≡ next_of (D.seen disk.old) page) }
    ensures stays { Stays D.seen D.may_leave D.moment D.left_since D.honest disk.old disk.new }
    ensures cause { HasCause (D.faults disk.old) (D.faults disk.new) result }
{
    let mut bytes = [0; 4];
    fetch(disk, PAGE_BYTES * u64::from(page), &mut bytes)?;
    Ok(BigEndian::read_u32(&bytes))
}

/// The pages of the chain that begins at `first` and has so many, each read once.
pub(crate) fn walk<D: Disk>(
    disk: &mut D,
    alloc: Global,
    bounds: Bounds,
    first: u32,
    count: u32,
) -> Result<Vec<u32>, VolumeFault>
    requires some { 0 < count }
    requires sized { IsTrue (D.honest disk.old) → bounds.size ≡ length (D.seen disk.old) }
    ensures ok { IfOk result (λ chain. IsTrue (D.honest disk.old)
        → (n : ℕ) → count ≡ pages_for n
        → IsChain (D.seen disk.old) bounds.pages first n chain.items) }
    ensures data_pages { IfOk result (λ chain. AllData bounds.pages chain.items) }
    ensures no_chain { IsErrOf result NotACatalogue → IsTrue (D.honest disk.old)
        → (n : ℕ) (chain : List ℕ) → count ≡ pages_for n
        → ¬ IsChain (D.seen disk.old) bounds.pages first n chain }
    ensures stays { Stays D.seen D.may_leave D.moment D.left_since D.honest disk.old disk.new }
    ensures failed { IsErrOf result DiskFault → Rose (D.faults disk.old) (D.faults disk.new) }
    ensures never_full { (needed free : ℕ) → ¬ IsErrOf result (VolumeFull needed free) }
{
    let mut chain = Vec::new(alloc);
    let mut page = first;
    for _step in 0..count {
        if !is_data_page(bounds, page) {
            return Err(VolumeFault::NotACatalogue);
        }
        let next = read_next(disk, page)?;
        chain.push(page)?;
        page = next;
    }
    if page != 0 {
        return Err(VolumeFault::NotACatalogue);
    }
    Ok(chain)
}
