ghost use Rattle.std.specs.Prelude.{◌≡◌, ◌+◌, ◌≤◌, IsTrue, OnOk, length};
ghost use Rattle.ci_io.specs.Causes.{HasCause};
ghost use Rattle.ci_device.specs.Images.{Holds, Only, Torn};
ghost use Rattle.ci_device.specs.Time.{LeavesOnly};
ghost use Rattle.ci_volume.specs.Steps.{EachLeft, IsTornFrom};

use ci_device::{DISK_BYTES, Disk, Failed};

/// Makes what was written stable.
pub(crate) fn make_stable<D: Disk>(disk: &mut D) -> Result<(), Failed>
    ensures stable { OnOk result (IsTrue (D.honest disk.old)
        → Only (D.seen disk.new) (D.may_leave disk.new)) }
    ensures seen { D.seen disk.new ≡ D.seen disk.old }
    ensures images { EachLeft (D.may_leave disk.new) (D.may_leave disk.old) }
    ensures any_moment { LeavesOnly D.moment D.left_since disk.old disk.new
        (D.may_leave disk.old) }
    ensures honest { D.honest disk.new ≡ D.honest disk.old }
    ensures cause { HasCause (D.faults disk.old) (D.faults disk.new) result }
{
    disk.sync()
}

/// Writes at a place, and makes it stable.
pub(crate) fn write_stable<D: Disk>(disk: &mut D, at: u64, bytes: &[u8]) -> Result<(), Failed>
    requires { at + length bytes.now ≤ DISK_BYTES }
    ensures stable { OnOk result (IsTrue (D.honest disk.old)
        → Only (D.seen disk.new) (D.may_leave disk.new)
        × Holds (D.seen disk.new) at bytes.now) }
    ensures others { Torn at (length bytes.now) (D.seen disk.old) (D.seen disk.new) }
    ensures images { EachLeft (D.may_leave disk.new)
        (IsTornFrom (D.may_leave disk.old) at (length bytes.now)) }
    ensures any_moment { LeavesOnly D.moment D.left_since disk.old disk.new
        (IsTornFrom (D.may_leave disk.old) at (length bytes.now)) }
    ensures honest { D.honest disk.new ≡ D.honest disk.old }
    ensures cause { HasCause (D.faults disk.old) (D.faults disk.new) result }
{
    disk.write_at(at, bytes)?;
    disk.sync()?;
    Ok(())
}

/// Writes at a place, and leaves it unsynced.
pub(crate) fn write_now<D: Disk>(disk: &mut D, at: u64, bytes: &[u8]) -> Result<(), Failed>
    requires { at + length bytes.now ≤ DISK_BYTES }
    ensures ok { OnOk result (IsTrue (D.honest disk.old)
        → Holds (D.seen disk.new) at bytes.now) }
    ensures others { Torn at (length bytes.now) (D.seen disk.old) (D.seen disk.new) }
    ensures images { EachLeft (D.may_leave disk.new)
        (IsTornFrom (D.may_leave disk.old) at (length bytes.now)) }
    ensures any_moment { LeavesOnly D.moment D.left_since disk.old disk.new
        (IsTornFrom (D.may_leave disk.old) at (length bytes.now)) }
    ensures honest { D.honest disk.new ≡ D.honest disk.old }
    ensures cause { HasCause (D.faults disk.old) (D.faults disk.new) result }
{
    disk.write_at(at, bytes)
}
