//! A session: lines come from a source, requests are served over a catalogue, replies go to a sink.
#![tactic(auto)]

mod command;
mod read_lines;
mod serve_document;
mod serve_filter;
mod serve_line;
mod serve_query;
mod serve_reply;
mod session;
mod status;
mod steps;

pub use command::run;
use read_lines::read_lines;
use serve_document::{serve_changed, serve_deleted, serve_put};
use serve_filter::serve_filter;
use serve_line::serve_line;
use serve_query::serve_query;
use serve_reply::{note_here, say_reply};
pub use session::Session;
pub use status::Status;
pub use steps::run_steps;

/// The author of every event here: the foreground, which reads the lines.
const FOREGROUND: u32 = 0;
