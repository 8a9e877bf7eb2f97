//! What filters say of documents: statuses, chunks, the pieces that chunks come to, and filters.
#![tactic(auto)]

mod chunk;
mod filter;
mod outcome;
mod piece;
mod status;
mod talk;
mod transcript;
mod transcript_fault;

pub use chunk::{Break, ChunkState, StatChunk};
pub use filter::Filter;
pub use outcome::{Outcome, Outcomes};
pub use piece::Piece;
pub use status::Status;
pub use talk::{Answer, Call, FilterStop};
pub use transcript::Transcript;
pub use transcript_fault::TranscriptFault;
