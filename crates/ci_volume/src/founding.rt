ghost use Rattle.std.specs.Prelude.{◌≡◌, [], ℕ, Contains, IfOk, IsTrue, OnOk, length};
ghost use Rattle.ci_io.specs.Causes.{HasCause};
ghost use Rattle.ci_device.specs.Images.{Only};
ghost use Rattle.ci_device.specs.Time.{LeavesOnly};
ghost use Rattle.ci_pages.specs.Tables.{AllData, IsOnce};
ghost use Rattle.ci_volume.specs.Creation.{BlankOrFounded, FreshOrFounded, IsFounded};
ghost use Rattle.ci_volume.specs.Layout.{IsFresh};
ghost use Rattle.ci_volume.specs.Runs.{IsRun};
ghost use Rattle.ci_volume.specs.Steps.{EachLeft, IsBlank};

use crate::Slot;
use crate::first_steps::{open_first_gate, write_first_slot, write_head};
use crate::reading::measure;
use crate::writing::write_pages;
use ci_device::{Disk, Failed};

/// What a new volume is to have: its slot, the pages of its chains, and its root.
#[derive(Clone, Copy)]
pub(crate) struct Plan<'a> {
    pub slot: Slot,
    pub root_pages: &'a [u32],
    pub root: &'a [u8],
    pub log: &'a [u32],
    ghost root_data: { AllData 262144 root_pages.now },
    ghost log_data: { AllData 262144 log.now },
    ghost apart: { (page : ℕ) → Contains log.now page → ¬ Contains root_pages.now page },
}

// Writes the root's chain, and the log's, which has zeros.
fn lay_chains<D: Disk>(disk: &mut D, buffer: &mut [u8], plan: Plan) -> Result<(), Failed>
    requires size { length buffer.old ≡ 4096 }
    requires once { IsOnce plan.root_pages.now × IsOnce plan.log.now }
    ensures root { OnOk result (IsTrue (D.honest disk.old)
        → IsRun (D.seen disk.new) plan.entry.root_pages.now plan.entry.root.now) }
    ensures log { OnOk result (IsTrue (D.honest disk.old)
        → IsRun (D.seen disk.new) plan.entry.log.now []) }
    // A stop at any moment leaves no gate open.
    ensures any_moment { EachLeft (D.may_leave disk.old) IsBlank
        → LeavesOnly D.moment D.left_since disk.old disk.new IsBlank }
    ensures honest { D.honest disk.new ≡ D.honest disk.old }
    ensures cause { HasCause (D.faults disk.old) (D.faults disk.new) result }
    ensures buffer { length buffer.new ≡ 4096 }
{
    write_pages(disk, buffer, plan.root_pages, plan.root)?;
    write_pages(disk, buffer, plan.log, &[])?;
    Ok(())
}

// Fills the slot of a volume whose chains are written, and opens its gate.
fn open_volume<D: Disk>(disk: &mut D, plan: Plan) -> Result<(), Failed>
    // A stop at any moment leaves no gate open, or the new volume.
    ensures any_moment { IsTrue (D.honest disk.old) → EachLeft (D.may_leave disk.old) IsBlank
        → IsRun (D.seen disk.old) plan.entry.root_pages.now plan.entry.root.now
        → IsRun (D.seen disk.old) plan.entry.log.now []
        → LeavesOnly D.moment D.left_since disk.old disk.new
        (BlankOrFounded plan.entry.slot plan.entry.root_pages.now plan.entry.root.now
        plan.entry.log.now) }
    ensures acknowledged { OnOk result (IsTrue (D.honest disk.old)
        → EachLeft (D.may_leave disk.old) IsBlank
        → IsRun (D.seen disk.old) plan.entry.root_pages.now plan.entry.root.now
        → IsRun (D.seen disk.old) plan.entry.log.now []
        → IsFounded plan.entry.slot plan.entry.root_pages.now plan.entry.root.now
        plan.entry.log.now (D.seen disk.new)) }
    ensures stable { OnOk result (IsTrue (D.honest disk.old)
        → Only (D.seen disk.new) (D.may_leave disk.new)) }
    ensures honest { D.honest disk.new ≡ D.honest disk.old }
    ensures cause { HasCause (D.faults disk.old) (D.faults disk.new) result }
{
    write_first_slot(disk, plan.slot)?;
    open_first_gate(disk)?;
    Ok(())
}

// All that a new volume has behind its slots.
fn lay_volume<D: Disk>(disk: &mut D, buffer: &mut [u8], plan: Plan) -> Result<(), Failed>
    requires size { length buffer.old ≡ 4096 }
    requires once { IsOnce plan.root_pages.now × IsOnce plan.log.now }
    requires fresh { IsTrue (D.honest disk.old) → IsFresh (D.seen disk.old) }
    // A stop at any moment leaves a fresh image.
    ensures any_moment { IsTrue (D.honest disk.old) → EachLeft (D.may_leave disk.old) IsFresh
        → LeavesOnly D.moment D.left_since disk.old disk.new IsFresh }
    ensures blank { OnOk result (IsTrue (D.honest disk.old)
        → EachLeft (D.may_leave disk.new) IsBlank) }
    ensures root { OnOk result (IsTrue (D.honest disk.old)
        → IsRun (D.seen disk.new) plan.entry.root_pages.now plan.entry.root.now) }
    ensures log { OnOk result (IsTrue (D.honest disk.old)
        → IsRun (D.seen disk.new) plan.entry.log.now []) }
    ensures honest { D.honest disk.new ≡ D.honest disk.old }
    ensures cause { HasCause (D.faults disk.old) (D.faults disk.new) result }
    ensures buffer { length buffer.new ≡ 4096 }
{
    write_head(disk)?;
    lay_chains(disk, buffer, plan)?;
    Ok(())
}

// All writes of a new volume.
fn write_volume<D: Disk>(disk: &mut D, buffer: &mut [u8], plan: Plan) -> Result<(), Failed>
    requires size { length buffer.old ≡ 4096 }
    requires once { IsOnce plan.root_pages.now × IsOnce plan.log.now }
    requires fresh { IsTrue (D.honest disk.old) → IsFresh (D.seen disk.old) }
    // A stop at any moment leaves a fresh image, or the new volume.
    ensures any_moment { IsTrue (D.honest disk.old) → EachLeft (D.may_leave disk.old) IsFresh
        → LeavesOnly D.moment D.left_since disk.old disk.new
        (FreshOrFounded plan.entry.slot plan.entry.root_pages.now plan.entry.root.now
        plan.entry.log.now) }
    ensures acknowledged { OnOk result (IsTrue (D.honest disk.old)
        → IsFounded plan.entry.slot plan.entry.root_pages.now plan.entry.root.now
        plan.entry.log.now (D.seen disk.new)) }
    ensures stable { OnOk result (IsTrue (D.honest disk.old)
        → Only (D.seen disk.new) (D.may_leave disk.new)) }
    ensures honest { D.honest disk.new ≡ D.honest disk.old }
    ensures cause { HasCause (D.faults disk.old) (D.faults disk.new) result }
    ensures buffer { length buffer.new ≡ 4096 }
{
    lay_volume(disk, buffer, plan)?;
    open_volume(disk, plan)?;
    Ok(())
}

/// Makes a new volume of a fresh image. The answer is how many bytes the disk has.
pub(crate) fn found_volume<D: Disk>(
    disk: &mut D,
    buffer: &mut [u8],
    plan: Plan,
) -> Result<u64, Failed>
    requires size { length buffer.old ≡ 4096 }
    requires once { IsOnce plan.root_pages.now × IsOnce plan.log.now }
    requires fresh { IsTrue (D.honest disk.old) → IsFresh (D.seen disk.old) }
    // A stop at any moment leaves a fresh image, or the new volume.
    ensures any_moment { IsTrue (D.honest disk.old) → EachLeft (D.may_leave disk.old) IsFresh
        → LeavesOnly D.moment D.left_since disk.old disk.new
        (FreshOrFounded plan.entry.slot plan.entry.root_pages.now plan.entry.root.now
        plan.entry.log.now) }
    ensures acknowledged { IfOk result (λ _. IsTrue (D.honest disk.old)
        → IsFounded plan.entry.slot plan.entry.root_pages.now plan.entry.root.now
        plan.entry.log.now (D.seen disk.new)) }
    ensures stable { IfOk result (λ _. IsTrue (D.honest disk.old)
        → Only (D.seen disk.new) (D.may_leave disk.new)) }
    ensures sized { IfOk result (λ n. IsTrue (D.honest disk.old) → n ≡ length (D.seen disk.new)) }
    ensures honest { D.honest disk.new ≡ D.honest disk.old }
    ensures cause { HasCause (D.faults disk.old) (D.faults disk.new) result }
    ensures buffer { length buffer.new ≡ 4096 }
{
    write_volume(disk, buffer, plan)?;
    let size = measure(disk)?;
    Ok(size)
}
