//! Frames: how calls and answers are spelled between the server and a daemon, and how they are read.
#![tactic(auto)]

mod body;
mod encode;
mod fields;
mod frame;
mod frames;
mod front;
mod kind;
mod law;

pub use ci_chunk::{Answer, Call};
pub use encode::{encode_answer, encode_call};
pub use frame::{Frame, FrameFault};
pub use frames::Frames;
pub use law::wire_law;
