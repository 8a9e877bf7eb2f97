//! The pieces of a query: its text cut into signs, runs, quoted pieces, names and values.
#![tactic(auto)]

mod bytes;
mod cut;
mod front;
mod law;
mod piece;

pub use cut::pieces;
pub use law::pieces_law;
pub use piece::{Piece, PieceKind};
