//! Keys of words, the places where words stand, and what is known by them of documents and words.
#![tactic(auto)]

mod entry;
mod key;
mod places;
mod postings;

pub use entry::Entry;
pub use key::Key;
pub use places::Places;
pub use postings::Postings;
