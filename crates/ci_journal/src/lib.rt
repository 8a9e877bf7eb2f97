//! What happens in a session, as a journal of events, and what the journal's definitions say of it.
#![tactic(auto)]

mod copies;
mod counted;
mod counts;
mod event;
mod journal;
mod notices;
mod number;
mod paths;
mod places;
mod printed;
mod read;
mod reply;
mod reply_bytes;
mod reply_text;
mod request;

pub use ci_change::{Batch, Docs, Notice, What};
pub use ci_chunk::{Outcome, Outcomes};
pub use counted::{
    EVENT_BYTES, asked_bytes, begun_bytes, done_bytes, erased_bytes, noted_bytes, put_bytes,
};
pub use counts::{Counts, Shape};
pub use event::{Event, Happened};
pub use journal::Journal;
pub use notices::Notices;
pub use paths::Paths;
pub use places::law;
pub use reply::Reply;
pub use request::Request;
