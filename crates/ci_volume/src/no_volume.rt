use crate::VolumeFault;
use ci_device::Disk;

/// No volume was opened: why, and the disk.
#[derive(Drop)]
pub struct NoVolume<D: Disk> {
    pub fault: VolumeFault,
    pub disk: D,
}
