ghost use Rattle.std.specs.Prelude.{◌≡◌, ◌-◌, ◌+◌, ◌*◌, ◌≤◌, ◌<◌, ℕ, List, IsTrue, OnOk, length, false};
ghost use Rattle.ci_io.specs.Causes.{HasCause};
ghost use Rattle.ci_device.specs.Images.{Holds, Only};
ghost use Rattle.ci_device.specs.Time.{LeavesOnly};
ghost use Rattle.ci_volume.specs.Layout.{IsShut};
ghost use Rattle.ci_volume.specs.Steps.{EachLeft, IsOlder, IsWritten, Stands, StandsBeside, StandsEither};
ghost use Rattle.ci_volume.specs.declared.slot.Slot.{Slot as Fields};

use crate::Slot;
use crate::slot_bytes::{SLOT_SIZE, write_slot};
use crate::stable::{make_stable, write_stable};
use ci_device::{Disk, Failed};

/// What a gate holds that is open. Every other byte is a closed gate.
pub(crate) const OPEN_GATE: u8 = 0x5A;

pub(crate) fn gate_offset(which: u64) -> u64
    requires { which ≤ 1 }
    ensures { result ≡ 6 + which }
{
    6 + which
}

pub(crate) fn slot_offset(which: u64) -> u64
    requires { which ≤ 1 }
    ensures { result ≡ 4096 * (which + 1) }
{
    4096 * (which + 1)
}

/// The first step into the slot beside the current one: its gate is shut where it may be open, and
/// all is made stable. A shut gate isn't written, since a stop might leave it open then.
pub(crate) fn shut_gate<D: Disk>(disk: &mut D, which: u64, may_be_open: bool) -> Result<(), Failed>
    requires { which ≤ 1 }
    ensures stable { OnOk result (IsTrue (D.honest disk.old)
        → Only (D.seen disk.new) (D.may_leave disk.new)) }
    // A stop at any moment leaves what stood before.
    ensures any_moment { (slot : Fields) (pages base : List ℕ)
        → EachLeft (D.may_leave disk.old) (StandsBeside may_be_open which slot pages base)
        → LeavesOnly D.moment D.left_since disk.old disk.new
        (Stands (1 - which) slot pages base) }
    ensures shut { OnOk result (IsTrue (D.honest disk.old) → (slot : Fields) (pages base : List ℕ)
        → EachLeft (D.may_leave disk.old) (StandsBeside may_be_open which slot pages base)
        → IsShut (D.seen disk.new) which) }
    // What stands behind the slots stays.
    ensures kept { OnOk result ((at : ℕ) (bytes : List ℕ) → 12288 ≤ at
        → Holds (D.seen disk.old) at bytes → Holds (D.seen disk.new) at bytes) }
    ensures size { OnOk result (12288 ≤ length (D.seen disk.old)
        → length (D.seen disk.new) ≡ length (D.seen disk.old)) }
    ensures honest { D.honest disk.new ≡ D.honest disk.old }
    ensures cause { HasCause (D.faults disk.old) (D.faults disk.new) result }
{
    if !may_be_open {
        make_stable(disk)?;
        return Ok(());
    }
    write_stable(disk, gate_offset(which), &[0])?;
    Ok(())
}

/// The last step: the gate of the written slot is opened, and that is made stable.
pub(crate) fn open_gate<D: Disk>(disk: &mut D, which: u64) -> Result<(), Failed>
    requires { which ≤ 1 }
    ensures stable { OnOk result (IsTrue (D.honest disk.old)
        → Only (D.seen disk.new) (D.may_leave disk.new)) }
    // A stop at any moment leaves what stood before, or what stands behind it.
    ensures any_moment { (slot next : Fields) (pages base : List ℕ)
        → EachLeft (D.may_leave disk.old) (IsWritten which slot next pages base)
        → LeavesOnly D.moment D.left_since disk.old disk.new
        (StandsEither which slot next pages base) }
    ensures acknowledged { OnOk result (IsTrue (D.honest disk.old)
        → (slot next : Fields) (pages base : List ℕ)
        → EachLeft (D.may_leave disk.old) (IsWritten which slot next pages base)
        → Stands which next pages base (D.seen disk.new)) }
    // The slot that was current is the older one.
    ensures older { OnOk result (IsTrue (D.honest disk.old)
        → (slot next : Fields) (pages base : List ℕ)
        → EachLeft (D.may_leave disk.old) (IsWritten which slot next pages base)
        → IsOlder (1 - which) next.generation (D.seen disk.new)) }
    // What stands behind the slots stays.
    ensures kept { OnOk result ((at : ℕ) (bytes : List ℕ) → 12288 ≤ at
        → Holds (D.seen disk.old) at bytes → Holds (D.seen disk.new) at bytes) }
    ensures size { OnOk result (12288 ≤ length (D.seen disk.old)
        → length (D.seen disk.new) ≡ length (D.seen disk.old)) }
    ensures honest { D.honest disk.new ≡ D.honest disk.old }
    ensures cause { HasCause (D.faults disk.old) (D.faults disk.new) result }
{
    write_stable(disk, gate_offset(which), &[OPEN_GATE])?;
    Ok(())
}

/// The step between: the next generation is written into the slot beside the current one, whose gate
/// is shut, and that is made stable.
pub(crate) fn fill_slot<D: Disk>(disk: &mut D, which: u64, next: Slot) -> Result<(), Failed>
    requires { which ≤ 1 }
    ensures stable { OnOk result (IsTrue (D.honest disk.old)
        → Only (D.seen disk.new) (D.may_leave disk.new)) }
    // A stop at any moment leaves what stood before, and the gate shut.
    ensures any_moment { (slot : Fields) (pages base : List ℕ)
        → EachLeft (D.may_leave disk.old) (StandsBeside false which slot pages base)
        → LeavesOnly D.moment D.left_since disk.old disk.new
        (StandsBeside false which slot pages base) }
    ensures written { OnOk result (IsTrue (D.honest disk.old)
        → (slot : Fields) (pages base : List ℕ)
        → slot.generation < next.generation
        → EachLeft (D.may_leave disk.old) (StandsBeside false which slot pages base)
        → IsWritten which slot next pages base (D.seen disk.new)) }
    // What stands behind the slots stays.
    ensures kept { OnOk result ((at : ℕ) (bytes : List ℕ) → 12288 ≤ at
        → Holds (D.seen disk.old) at bytes → Holds (D.seen disk.new) at bytes) }
    ensures size { OnOk result (12288 ≤ length (D.seen disk.old)
        → length (D.seen disk.new) ≡ length (D.seen disk.old)) }
    ensures honest { D.honest disk.new ≡ D.honest disk.old }
    ensures cause { HasCause (D.faults disk.old) (D.faults disk.new) result }
{
    let mut bytes = [0; SLOT_SIZE];
    write_slot(&mut bytes, next);
    write_stable(disk, slot_offset(which), &bytes)?;
    Ok(())
}
