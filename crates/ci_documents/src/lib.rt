//! The documents that a catalogue keeps: a path to an entry, and which of them have a word.
#![tactic(auto)]

mod documents;
mod plain;
mod shared_entry;
mod shared_plain;
mod standing;

pub use documents::{Documents, make_place, paths_of, plain_list, serve, take_away};
pub use plain::Plain;
pub use shared_entry::SharedEntry;
pub use shared_plain::SharedPlain;
pub use standing::Standing;
