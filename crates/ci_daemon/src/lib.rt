//! The daemon's side of the pipe: the calls of a server, answered by filters.
#![tactic(auto)]

mod answering;
mod asking;
mod ended;
mod hearing;
mod holding;
mod reply;
mod serve;

pub use ended::Ended;
pub use holding::Holding;
pub use serve::serve_filters;
