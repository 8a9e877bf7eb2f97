//! A disk that may stop at any moment: its contract, two disks in memory, and a file as a disk.
#![tactic(auto)]

mod disk;
mod file_disk;
mod memory_disk;
mod pick;
mod platter;
mod sure_memory_disk;

pub use ci_io::Failed;
pub use disk::{DISK_BYTES, Disk};
pub use file_disk::FileDisk;
pub use memory_disk::MemoryDisk;
pub use pick::Pick;
pub use sure_memory_disk::SureMemoryDisk;
