ghost use Rattle.std.specs.Prelude.{◌≡◌, ◌-◌, ◌<◌, ◌≤◌, ℕ, List, Contains, IfOk, IsTrue, length, true};
ghost use Rattle.ci_io.specs.Causes.{HasCause};
ghost use Rattle.ci_device.specs.Images.{Only};
ghost use Rattle.ci_device.specs.Time.{LeavesOnly};
ghost use Rattle.ci_pages.specs.Tables.{AllData, IsOnce};
ghost use Rattle.ci_volume.specs.Chain.{pages_for};
ghost use Rattle.ci_volume.specs.Runs.{IsRun};
ghost use Rattle.ci_volume.specs.Steps.{EachLeft, StandsBeside, StandsEither};
ghost use Rattle.ci_volume.specs.declared.slot.Slot.{Slot as Fields};

use crate::Slot;
use crate::passing::pass_over;
use crate::writing::write_chain;
use ci_device::{Disk, Failed};

/// Where a commit goes: the slot beside the current one, and what it is to have.
#[derive(Clone, Copy)]
pub(crate) struct Goal {
    pub which: u64,
    /// Whether the gate of that slot may be open.
    pub may_be_open: bool,
    pub next: Slot,
}

/// The writes of a commit: the root's chain into some pages, and then the three steps to the
/// generation that names it. The answer is how many bytes the disk has.
pub(crate) fn write_generation<D: Disk>(
    disk: &mut D,
    buffer: &mut [u8],
    goal: Goal,
    pages: &[u32],
    root: &[u8],
) -> Result<u64, Failed>
    requires which { goal.which ≤ 1 }
    requires size { length buffer.old ≡ 4096 }
    requires count { length pages.now ≡ pages_for (length root.now) }
    requires some { 0 < length root.now }
    requires once { IsOnce pages.now }
    requires data_pages { AllData 262144 pages.now }
    // A stop at any moment leaves the one generation or the other, and the pages of both.
    ensures any_moment { IsTrue (D.honest disk.old) → (slot : Fields) (held base : List ℕ)
        → slot.generation < goal.next.generation
        → ((page : ℕ) → Contains pages.now page → ¬ Contains held page)
        → EachLeft (D.may_leave disk.old) (StandsBeside goal.may_be_open goal.which slot held base)
        → LeavesOnly D.moment D.left_since disk.old disk.new
        (StandsEither goal.which slot goal.next held base) }
    // Behind it the next generation stands, and the one after it may follow.
    ensures acknowledged { IfOk result (λ _. IsTrue (D.honest disk.old)
        → (slot : Fields) (held base : List ℕ)
        → slot.generation < goal.next.generation
        → ((page : ℕ) → Contains pages.now page → ¬ Contains held page)
        → EachLeft (D.may_leave disk.old) (StandsBeside goal.may_be_open goal.which slot held base)
        → EachLeft (D.may_leave disk.new)
        (StandsBeside true (1 - goal.which) goal.next held base)) }
    ensures root { IfOk result (λ _. IsTrue (D.honest disk.old)
        → IsRun (D.seen disk.new) pages.now root.now) }
    ensures sized { IfOk result (λ n. IsTrue (D.honest disk.old) → n ≡ length (D.seen disk.new)) }
    ensures stable { IfOk result (λ _. IsTrue (D.honest disk.old)
        → Only (D.seen disk.new) (D.may_leave disk.new)) }
    ensures honest { D.honest disk.new ≡ D.honest disk.old }
    ensures cause { HasCause (D.faults disk.old) (D.faults disk.new) result }
    ensures buffer { length buffer.new ≡ 4096 }
{
    let size = write_chain(disk, buffer, pages, root)?;
    pass_over(disk, goal.which, goal.may_be_open, goal.next)?;
    Ok(size)
}
