ghost use Rattle.std.specs.Prelude.{◌≡◌, ◌+◌, ◌*◌, ◌++◌, ◌<◌, ◌≤◌, ℕ, List, IfOk, IsErrOf, IsTrue, OnOk, drop, length};
ghost use Rattle.std.specs.List.{flat_map};
ghost use Rattle.ci_io.specs.Causes.{HasCause, Rose};
ghost use Rattle.ci_volume.specs.Chain.{IsChain, content_of, next_of, pages_for};
ghost use Rattle.ci_volume.specs.Layout.{number_at};
ghost use Rattle.ci_volume.specs.Steps.{Stays};
ghost use Rattle.ci_volume.specs.declared.fault.VolumeFault.TheVariants.{DiskFault, NotACatalogue, VolumeFull};

use crate::VolumeFault;
use crate::chains::{Bounds, PAGE_BYTES, is_data_page};
use crate::reading::fetch;
use byteorder::{BigEndian, ByteOrder};
use ci_device::{Disk, Failed};
use std::alloc::{AllocError, Global};

// Reads a page of a chain. The answer is the number of the page that follows.
fn read_page<D: Disk>(disk: &mut D, buffer: &mut [u8], page: u32) -> Result<u32, Failed>
    requires size { length buffer.old ≡ 4096 }
    requires within { IsTrue (D.honest disk.old)
        → PAGE_BYTES * (page + 1) ≤ length (D.seen disk.old) }
    ensures next { IfOk result (λ next. IsTrue (D.honest disk.old)
        → next ≡ next_of (D.seen disk.old) page) }
    ensures content { IfOk result (λ _. IsTrue (D.honest disk.old)
        → drop 4 buffer.new ≡ content_of (D.seen disk.old) page) }
    ensures stays { Stays D.seen D.may_leave D.moment D.left_since D.honest disk.old disk.new }
    ensures cause { HasCause (D.faults disk.old) (D.faults disk.new) result }
    ensures buffer { length buffer.new ≡ 4096 }
{
    fetch(disk, PAGE_BYTES * u64::from(page), buffer)?;
    Ok(next_in(buffer))
}

fn next_in(page: &[u8]) -> u32
    requires { 4 ≤ length page.now }
    ensures { result ≡ number_at page.now 0 4 }
{
    BigEndian::read_u32(&page[..4])
}

// Appends the content of a page.
fn append(bytes: &mut Vec<u8>, page: &[u8]) -> Result<(), AllocError>
    requires { 4 ≤ length page.now }
    ensures { OnOk result (bytes.new.items ≡ bytes.old.items ++ drop 4 page.now) }
{
    bytes.extend_from_slice(&page[4..])?;
    Ok(())
}

/// The content of the pages of the chain that begins at `first` and has so many, each read once.
pub(crate) fn gather<D: Disk>(
    disk: &mut D,
    buffer: &mut [u8],
    alloc: Global,
    bounds: Bounds,
    first: u32,
    count: u32,
) -> Result<Vec<u8>, VolumeFault>
    requires size { length buffer.old ≡ 4096 }
    requires some { 0 < count }
    requires sized { IsTrue (D.honest disk.old) → bounds.size ≡ length (D.seen disk.old) }
    ensures ok { IfOk result (λ bytes. IsTrue (D.honest disk.old)
        → (n : ℕ) (chain : List ℕ) → count ≡ pages_for n
        → IsChain (D.seen disk.old) bounds.pages first n chain
        → bytes.items ≡ flat_map (content_of (D.seen disk.old)) chain) }
    ensures is_chain { IfOk result (λ _. IsTrue (D.honest disk.old)
        → (n : ℕ) → count ≡ pages_for n
        → (chain : List ℕ) × IsChain (D.seen disk.old) bounds.pages first n chain) }
    ensures no_chain { IsErrOf result NotACatalogue → IsTrue (D.honest disk.old)
        → (n : ℕ) (chain : List ℕ) → count ≡ pages_for n
        → ¬ IsChain (D.seen disk.old) bounds.pages first n chain }
    ensures stays { Stays D.seen D.may_leave D.moment D.left_since D.honest disk.old disk.new }
    ensures failed { IsErrOf result DiskFault → Rose (D.faults disk.old) (D.faults disk.new) }
    ensures never_full { (needed free : ℕ) → ¬ IsErrOf result (VolumeFull needed free) }
    ensures buffer { length buffer.new ≡ 4096 }
{
    let mut bytes = Vec::new(alloc);
    let mut page = first;
    for _step in 0..count {
        if !is_data_page(bounds, page) {
            return Err(VolumeFault::NotACatalogue);
        }
        let next = read_page(disk, buffer, page)?;
        append(&mut bytes, buffer)?;
        page = next;
    }
    if page != 0 {
        return Err(VolumeFault::NotACatalogue);
    }
    Ok(bytes)
}
