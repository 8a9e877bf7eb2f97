//! What the pages of a volume are for, and which of them are free.
#![tactic(auto)]

mod finding;
mod leaving;
mod page_use;
mod table;
mod taking;
mod uses;

pub use page_use::PageUse;
pub use table::PageTable;
pub use uses::Uses;
