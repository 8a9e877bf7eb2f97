//! The pipe to a filter daemon: links, spawners, and the talk that reads the documents of a batch.
#![tactic(auto)]

mod child_link;
mod child_spawner;
mod daemon;
mod document;
mod hear;
mod hear_text;
mod hear_value;
mod link;
mod memory_link;
mod memory_parts;
mod memory_spawner;
mod no_daemon;
mod outcome;
mod record;
mod record_room;
mod records;
mod send;
mod spawner;
mod stage;
mod stop;
mod sure_memory_link;
mod sure_memory_spawner;

pub use child_link::ChildLink;
pub use child_spawner::ChildSpawner;
pub use daemon::Daemon;
pub use link::Link;
pub use memory_link::MemoryLink;
pub use memory_spawner::MemorySpawner;
pub use no_daemon::NoDaemon;
pub use outcome::Talk;
pub use record::LinkRecord;
pub use records::Records;
pub use spawner::{SpawnFault, Spawner};
pub use sure_memory_link::SureMemoryLink;
pub use sure_memory_spawner::SureMemorySpawner;
