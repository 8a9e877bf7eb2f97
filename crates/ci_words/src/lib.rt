//! The words of a text: its segments, folded and cut.
#![tactic(auto)]

mod front;
mod noise_line;
mod noise_list;
mod words;

pub use front::cut;
pub use noise_list::{NoiseFault, NoiseList};
pub use words::{WORD_BYTES, Words};
