ghost use Rattle.std.specs.Prelude.{◌≡◌, ◌↔◌, IfOk, IsErrOf, IsTrue};
ghost use Rattle.ci_io.specs.Causes.{Rose};
ghost use Rattle.ci_volume.specs.Layout.{IsFresh};
ghost use Rattle.ci_volume.specs.Steps.{Stays};
ghost use Rattle.ci_volume.specs.declared.fault.VolumeFault.TheVariants.{DiskFault};

use crate::VolumeFault;
use crate::found::read_head;
use crate::reading::measure;
use ci_device::Disk;

/// Whether no volume was ever opened in the image: it has at most 8 bytes, or the mark and no open
/// gate.
pub fn is_fresh<D: Disk>(disk: &mut D) -> Result<bool, VolumeFault>
    ensures ok { IfOk result (λ yes. IsTrue (D.honest disk.old)
        → (IsTrue yes ↔ IsFresh (D.seen disk.old))) }
    ensures stays { Stays D.seen D.may_leave D.moment D.left_since D.honest disk.old disk.new }
    ensures failed { IsErrOf result DiskFault → Rose (D.faults disk.old) (D.faults disk.new) }
    ensures only_failed { (fault : _) → IsErrOf result fault → fault ≡ DiskFault }
{
    if measure(disk)? <= 8 {
        return Ok(true);
    }
    match read_head(disk)? {
        None => Ok(false),
        Some(head) => Ok(!head.first_is_open && !head.second_is_open),
    }
}
