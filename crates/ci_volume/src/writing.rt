ghost use Rattle.std.specs.Prelude.{◌≡◌, ◌+◌, ◌-◌, ◌*◌, ◌++◌, ◌<◌, ◌≤◌, IfOk, IsTrue, OnOk, length, replicate, slice_index};
ghost use Rattle.ci_io.specs.Causes.{HasCause};
ghost use Rattle.ci_device.specs.Images.{Holds, Torn};
ghost use Rattle.ci_device.specs.Time.{LeavesOnly};
ghost use Rattle.ci_pages.specs.Tables.{AllData, IsOnce};
ghost use Rattle.ci_volume.specs.Layout.{part};
ghost use Rattle.ci_volume.specs.Runs.{IsRun, page_of};
ghost use Rattle.ci_volume.specs.Steps.{IsSparedFrom, IsTornFrom, SparesOthers};

use crate::chains::PAGE_BYTES;
use crate::reading::measure;
use crate::stable::write_now;
use byteorder::{BigEndian, ByteOrder};
use ci_device::{Disk, Failed};
use std::alloc::{AllocError, Global};

/// The bytes of content of a page.
const CONTENT_BYTES: usize = 4092;

/// So many zeros.
pub(crate) fn zeros(alloc: Global, count: usize) -> Result<Vec<u8>, AllocError>
    ensures { IfOk result (λ v. length v.items ≡ count) }
{
    Vec::from_elem(alloc, 0u8, count)
}

// Spells a page: the number of the next one, the content, and 0 behind it.
fn spell_page(page: &mut [u8], next: u32, content: &[u8])
    requires size { length page.old ≡ 4096 }
    requires fits { length content.now ≤ 4092 }
    ensures { page.new ≡ page_of next content.now }
{
    BigEndian::write_u32(page, next);
    spell_content(&mut page[4..], content);
}

fn spell_content(out: &mut [u8], content: &[u8])
    requires { length content.now ≤ length out.old }
    ensures { out.new ≡ content.now ++ replicate (length out.old - length content.now) 0 }
{
    let (front, rest) = out.split_at_mut(content.len());
    front.copy_from_slice(content);
    rest.fill(0);
}

// The part of some bytes that stands in a page of their run.
fn content_at(bytes: &[u8], at: usize) -> &[u8]
    ensures part { result.now ≡ part bytes.now (4092 * at) 4092 }
    ensures size { length result.now ≤ 4092 }
{
    let from = CONTENT_BYTES.saturating_mul(at).min(bytes.len());
    let end = from.saturating_add(CONTENT_BYTES).min(bytes.len());
    &bytes[from..end]
}

// Writes one page of a run.
fn write_page<D: Disk>(
    disk: &mut D,
    buffer: &mut [u8],
    page: u32,
    next: u32,
    content: &[u8],
) -> Result<(), Failed>
    requires size { length buffer.old ≡ 4096 }
    requires fits { length content.now ≤ 4092 }
    requires page { page < 262144 }
    ensures ok { OnOk result (IsTrue (D.honest disk.old)
        → Holds (D.seen disk.new) (PAGE_BYTES * page) (page_of next content.now)) }
    ensures others { Torn (PAGE_BYTES * page) PAGE_BYTES (D.seen disk.old) (D.seen disk.new) }
    ensures any_moment { LeavesOnly D.moment D.left_since disk.old disk.new
        (IsTornFrom (D.may_leave disk.old) (PAGE_BYTES * page) PAGE_BYTES) }
    ensures honest { D.honest disk.new ≡ D.honest disk.old }
    ensures cause { HasCause (D.faults disk.old) (D.faults disk.new) result }
    ensures buffer { length buffer.new ≡ 4096 }
{
    spell_page(buffer, next, content);
    write_now(disk, PAGE_BYTES * u64::from(page), buffer)
}

/// Writes a chain into some pages. Behind its bytes there are zeros.
pub(crate) fn write_pages<D: Disk>(
    disk: &mut D,
    buffer: &mut [u8],
    pages: &[u32],
    bytes: &[u8],
) -> Result<(), Failed>
    requires size { length buffer.old ≡ 4096 }
    requires once { IsOnce pages.now }
    requires data_pages { AllData 262144 pages.now }
    ensures ok { OnOk result (IsTrue (D.honest disk.old)
        → IsRun (D.seen disk.new) pages.now bytes.now) }
    // A stop at any moment leaves all other pages as they were.
    ensures any_moment { LeavesOnly D.moment D.left_since disk.old disk.new
        (IsSparedFrom (D.may_leave disk.old) pages.now) }
    ensures others { SparesOthers pages.now (D.seen disk.old) (D.seen disk.new) }
    ensures honest { D.honest disk.new ≡ D.honest disk.old }
    ensures cause { HasCause (D.faults disk.old) (D.faults disk.new) result }
    ensures buffer { length buffer.new ≡ 4096 }
{
    for at in 0..pages.len() {
        let content = content_at(bytes, at);
        write_page(disk, buffer, pages[at], following(pages, at), content)?;
    }
    Ok(())
}

// The page behind one in a run. 0: none is.
fn following(pages: &[u32], at: usize) -> u32
    requires { at < length pages.now }
    ensures { result ≡ slice_index pages.now (at + 1) }
{
    if at + 1 < pages.len() {
        return pages[at + 1];
    }
    0
}

/// Writes a chain, and tells how many bytes the disk has then.
pub(crate) fn write_chain<D: Disk>(
    disk: &mut D,
    buffer: &mut [u8],
    pages: &[u32],
    bytes: &[u8],
) -> Result<u64, Failed>
    requires size { length buffer.old ≡ 4096 }
    requires once { IsOnce pages.now }
    requires data_pages { AllData 262144 pages.now }
    ensures ok { IfOk result (λ _. IsTrue (D.honest disk.old)
        → IsRun (D.seen disk.new) pages.now bytes.now) }
    ensures sized { IfOk result (λ n. IsTrue (D.honest disk.old) → n ≡ length (D.seen disk.new)) }
    // A stop at any moment leaves all other pages as they were.
    ensures any_moment { LeavesOnly D.moment D.left_since disk.old disk.new
        (IsSparedFrom (D.may_leave disk.old) pages.now) }
    ensures honest { D.honest disk.new ≡ D.honest disk.old }
    ensures cause { HasCause (D.faults disk.old) (D.faults disk.new) result }
    ensures buffer { length buffer.new ≡ 4096 }
{
    write_pages(disk, buffer, pages, bytes)?;
    let size = measure(disk)?;
    Ok(size)
}
