//! What is known of a document from its transcript: its words with their places, and its values.
#![tactic(auto)]

mod entry;
mod group;
mod run;
mod value;
mod word;

pub use entry::{Filtering, entry_of};
