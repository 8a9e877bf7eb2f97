ghost use Rattle.std.specs.Prelude.{◌≡◌, ◌-◌, ◌≤◌, ◌<◌, ℕ, List, IsTrue, OnOk, length, true};
ghost use Rattle.ci_io.specs.Causes.{HasCause};
ghost use Rattle.ci_device.specs.Images.{Holds, Only};
ghost use Rattle.ci_device.specs.Time.{LeavesOnly};
ghost use Rattle.ci_volume.specs.Steps.{EachLeft, IsWritten, Stands, StandsBeside, StandsEither};
ghost use Rattle.ci_volume.specs.declared.slot.Slot.{Slot as Fields};

use crate::Slot;
use crate::gates::{fill_slot, open_gate, shut_gate};
use ci_device::{Disk, Failed};

// The slot beside the current one is shut and filled, each behind a sync.
fn fill_beside<D: Disk>(
    disk: &mut D,
    which: u64,
    may_be_open: bool,
    next: Slot,
) -> Result<(), Failed>
    requires { which ≤ 1 }
    // A stop at any moment leaves what stood before.
    ensures any_moment { IsTrue (D.honest disk.old) → (slot : Fields) (pages base : List ℕ)
        → EachLeft (D.may_leave disk.old) (StandsBeside may_be_open which slot pages base)
        → LeavesOnly D.moment D.left_since disk.old disk.new
        (Stands (1 - which) slot pages base) }
    ensures written { OnOk result (IsTrue (D.honest disk.old)
        → (slot : Fields) (pages base : List ℕ)
        → slot.generation < next.generation
        → EachLeft (D.may_leave disk.old) (StandsBeside may_be_open which slot pages base)
        → EachLeft (D.may_leave disk.new) (IsWritten which slot next pages base)) }
    // What stands behind the slots stays.
    ensures kept { OnOk result ((at : ℕ) (bytes : List ℕ) → 12288 ≤ at
        → Holds (D.seen disk.old) at bytes → Holds (D.seen disk.new) at bytes) }
    ensures size { OnOk result (12288 ≤ length (D.seen disk.old)
        → length (D.seen disk.new) ≡ length (D.seen disk.old)) }
    ensures honest { D.honest disk.new ≡ D.honest disk.old }
    ensures cause { HasCause (D.faults disk.old) (D.faults disk.new) result }
{
    shut_gate(disk, which, may_be_open)?;
    fill_slot(disk, which, next)?;
    Ok(())
}

/// From one generation to the next, whose chains are written: the slot beside the current one is
/// shut, filled and opened, each behind a sync. At Ok the next generation is stable.
pub(crate) fn pass_over<D: Disk>(
    disk: &mut D,
    which: u64,
    may_be_open: bool,
    next: Slot,
) -> Result<(), Failed>
    requires { which ≤ 1 }
    // A stop at any moment leaves the one generation or the other, and the pages of both.
    ensures any_moment { IsTrue (D.honest disk.old) → (slot : Fields) (pages base : List ℕ)
        → slot.generation < next.generation
        → EachLeft (D.may_leave disk.old) (StandsBeside may_be_open which slot pages base)
        → LeavesOnly D.moment D.left_since disk.old disk.new
        (StandsEither which slot next pages base) }
    ensures acknowledged { OnOk result (IsTrue (D.honest disk.old)
        → (slot : Fields) (pages base : List ℕ)
        → slot.generation < next.generation
        → EachLeft (D.may_leave disk.old) (StandsBeside may_be_open which slot pages base)
        → EachLeft (D.may_leave disk.new) (Stands which next pages base)) }
    // The slot that was left is the older one, so that the generation after it may follow.
    ensures ready { OnOk result (IsTrue (D.honest disk.old)
        → (slot : Fields) (pages base : List ℕ)
        → slot.generation < next.generation
        → EachLeft (D.may_leave disk.old) (StandsBeside may_be_open which slot pages base)
        → EachLeft (D.may_leave disk.new) (StandsBeside true (1 - which) next pages base)) }
    ensures stable { OnOk result (IsTrue (D.honest disk.old)
        → Only (D.seen disk.new) (D.may_leave disk.new)) }
    // What stands behind the slots stays.
    ensures kept { OnOk result ((at : ℕ) (bytes : List ℕ) → 12288 ≤ at
        → Holds (D.seen disk.old) at bytes → Holds (D.seen disk.new) at bytes) }
    ensures size { OnOk result (12288 ≤ length (D.seen disk.old)
        → length (D.seen disk.new) ≡ length (D.seen disk.old)) }
    ensures honest { D.honest disk.new ≡ D.honest disk.old }
    ensures cause { HasCause (D.faults disk.old) (D.faults disk.new) result }
{
    fill_beside(disk, which, may_be_open, next)?;
    open_gate(disk, which)?;
    Ok(())
}
