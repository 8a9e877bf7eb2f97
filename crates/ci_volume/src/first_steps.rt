ghost use Rattle.std.specs.Prelude.{◌≡◌, [], ℕ, List, IsTrue, OnOk};
ghost use Rattle.ci_io.specs.Causes.{HasCause};
ghost use Rattle.ci_device.specs.Images.{Only};
ghost use Rattle.ci_device.specs.Time.{LeavesOnly};
ghost use Rattle.ci_pages.specs.Tables.{AllData};
ghost use Rattle.ci_volume.specs.Creation.{BlankOrFounded, IsFounded, IsReady};
ghost use Rattle.ci_volume.specs.Layout.{IsFresh};
ghost use Rattle.ci_volume.specs.Runs.{IsRun};
ghost use Rattle.ci_volume.specs.Steps.{EachLeft, IsBlank};
ghost use Rattle.ci_volume.specs.declared.slot.Slot.{Slot as Fields};

use crate::Slot;
use crate::gates::{OPEN_GATE, gate_offset, slot_offset};
use crate::reading::measure;
use crate::slot_bytes::{SLOT_SIZE, write_slot};
use crate::stable::{make_stable, write_stable};
use ci_device::{Disk, Failed};

/// The mark, and two gates that are shut.
const HEAD: [u8; 8] = *b"CICAT1\0\0";

/// The first step of a new volume: the mark and two shut gates. What was written is made stable
/// before, so that an image has either at most these bytes or all of them.
pub(crate) fn write_head<D: Disk>(disk: &mut D) -> Result<(), Failed>
    requires fresh { IsTrue (D.honest disk.old) → IsFresh (D.seen disk.old) }
    ensures stable { OnOk result (IsTrue (D.honest disk.old)
        → Only (D.seen disk.new) (D.may_leave disk.new)) }
    ensures blank { OnOk result (IsTrue (D.honest disk.old) → IsBlank (D.seen disk.new)) }
    // A stop at any moment leaves a fresh image.
    ensures any_moment { IsTrue (D.honest disk.old) → EachLeft (D.may_leave disk.old) IsFresh
        → LeavesOnly D.moment D.left_since disk.old disk.new IsFresh }
    ensures honest { D.honest disk.new ≡ D.honest disk.old }
    ensures cause { HasCause (D.faults disk.old) (D.faults disk.new) result }
{
    make_stable(disk)?;
    let size = measure(disk)?;
    if size <= 8 {
        write_stable(disk, 0, &HEAD)?;
    }
    Ok(())
}

/// The step behind the chains: the first slot is filled, and all is made stable.
pub(crate) fn write_first_slot<D: Disk>(disk: &mut D, slot: Slot) -> Result<(), Failed>
    ensures stable { OnOk result (IsTrue (D.honest disk.old)
        → Only (D.seen disk.new) (D.may_leave disk.new)) }
    // A stop at any moment leaves no gate open.
    ensures any_moment { EachLeft (D.may_leave disk.old) IsBlank
        → LeavesOnly D.moment D.left_since disk.old disk.new IsBlank }
    ensures ready { OnOk result (IsTrue (D.honest disk.old)
        → EachLeft (D.may_leave disk.old) IsBlank
        → (root_pages root log : List ℕ) → AllData 262144 root_pages → AllData 262144 log
        → IsRun (D.seen disk.old) root_pages root → IsRun (D.seen disk.old) log []
        → IsReady slot root_pages root log (D.seen disk.new)) }
    ensures honest { D.honest disk.new ≡ D.honest disk.old }
    ensures cause { HasCause (D.faults disk.old) (D.faults disk.new) result }
{
    let mut bytes = [0; SLOT_SIZE];
    write_slot(&mut bytes, slot);
    write_stable(disk, slot_offset(0), &bytes)?;
    Ok(())
}

/// The last step: the first gate is opened, and that is made stable.
pub(crate) fn open_first_gate<D: Disk>(disk: &mut D) -> Result<(), Failed>
    ensures stable { OnOk result (IsTrue (D.honest disk.old)
        → Only (D.seen disk.new) (D.may_leave disk.new)) }
    // A stop at any moment leaves no gate open, or the new volume.
    ensures any_moment { (slot : Fields) (root_pages root log : List ℕ)
        → AllData 262144 root_pages → AllData 262144 log
        → EachLeft (D.may_leave disk.old) (IsReady slot root_pages root log)
        → LeavesOnly D.moment D.left_since disk.old disk.new
        (BlankOrFounded slot root_pages root log) }
    ensures acknowledged { OnOk result (IsTrue (D.honest disk.old)
        → (slot : Fields) (root_pages root log : List ℕ)
        → AllData 262144 root_pages → AllData 262144 log
        → EachLeft (D.may_leave disk.old) (IsReady slot root_pages root log)
        → IsFounded slot root_pages root log (D.seen disk.new)) }
    ensures honest { D.honest disk.new ≡ D.honest disk.old }
    ensures cause { HasCause (D.faults disk.old) (D.faults disk.new) result }
{
    write_stable(disk, gate_offset(0), &[OPEN_GATE])?;
    Ok(())
}
