//! Word lists: the index of one batch of documents, in memory.
#![tactic(auto)]

mod filing;
mod word_list;

pub use word_list::WordList;
