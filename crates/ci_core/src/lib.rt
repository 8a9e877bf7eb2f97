//! The catalogue: documents, the journal of what happened to them, and the steps that add to it.
#![tactic(auto)]

mod batch_steps;
mod catalog;
mod closed;
mod daemon_steps;
mod no_catalog;
mod steps;

pub use catalog::Catalog;
pub use ci_book::{
    CoreFault, DOCUMENTS_LEAST, DOCUMENTS_MOST, JOURNAL_LEAST, JOURNAL_MOST, RETRIES_LEAST,
    RETRIES_MOST, RETRIES_STANDARD, Refusal, Settings, Tried,
};
pub use ci_holdings::{Question, asked_tree};
pub use closed::Closed;
pub use no_catalog::NoCatalog;
