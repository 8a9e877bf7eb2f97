//! The change list: which notices are pending, in order, and which batches of them are out.
#![tactic(auto)]

mod batch;
mod change_list;
mod docs;
mod held;
mod notice;
mod order;
mod past;
mod register;
mod rows;
mod steps;

pub use batch::Batch;
pub use change_list::ChangeList;
pub use docs::Docs;
pub use notice::{Notice, What};
