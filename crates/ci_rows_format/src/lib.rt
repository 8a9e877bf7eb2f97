//! Rows: what an index keeps of each document beside its words, and how rows are spelled.
#![tactic(auto)]

mod fault;
mod fields;
mod read;
mod row;
mod values;
mod write;

pub use fault::RowsFault;
pub use read::{read_rows, rows_law};
pub use row::{Row, RowState};
pub use values::Values;
pub use write::rows_bytes;
