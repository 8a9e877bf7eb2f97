//! Numbers and texts at the front of bytes: read in place, and written.
#![tactic(auto)]

mod front;

pub use front::{bytes_front, i64_front, number_front, sized_front, u32_front};
