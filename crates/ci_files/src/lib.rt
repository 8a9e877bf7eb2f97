//! Files that are read by path: what a filter reads its documents from.
#![tactic(auto)]

mod files;
mod memory_files;
mod memory_parts;
mod real_files;
mod sure_memory_files;

pub use files::{FileFault, Files};
pub use memory_files::MemoryFiles;
pub use real_files::RealFiles;
pub use sure_memory_files::SureMemoryFiles;
