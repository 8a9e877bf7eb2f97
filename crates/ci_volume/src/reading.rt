ghost use Rattle.std.specs.Prelude.{◌≡◌, ◌+◌, ◌≤◌, IfOk, IsTrue, OnOk, length};
ghost use Rattle.ci_io.specs.Causes.{HasCause};
ghost use Rattle.ci_volume.specs.Layout.{part};
ghost use Rattle.ci_volume.specs.Steps.{Stays};

use ci_device::{Disk, Failed};

/// How many bytes the disk has.
pub(crate) fn measure<D: Disk>(disk: &mut D) -> Result<u64, Failed>
    ensures ok { IfOk result (λ n. IsTrue (D.honest disk.old) → n ≡ length (D.seen disk.old)) }
    ensures stays { Stays D.seen D.may_leave D.moment D.left_since D.honest disk.old disk.new }
    ensures cause { HasCause (D.faults disk.old) (D.faults disk.new) result }
{
    disk.length()
}

/// The bytes from a place on.
pub(crate) fn fetch<D: Disk>(disk: &mut D, at: u64, out: &mut [u8]) -> Result<(), Failed>
    requires { IsTrue (D.honest disk.old) → at + length out.old ≤ length (D.seen disk.old) }
    ensures ok { OnOk result (IsTrue (D.honest disk.old)
        → out.new ≡ part (D.seen disk.old) at (length out.old)) }
    ensures stays { Stays D.seen D.may_leave D.moment D.left_since D.honest disk.old disk.new }
    ensures cause { HasCause (D.faults disk.old) (D.faults disk.new) result }
{
    disk.read_at(at, out)
}
