//! The filter worker: it erases what was deleted, and has batches of changed documents read by
//! daemons that it starts.
#![tactic(auto)]

mod batches;
mod deletions;
mod links;
mod worker;

use deletions::erase_deletions;
pub use worker::Worker;
