//! The journal under its bound with the sink that it is printed to, the settings, and why a step of
//! the catalogue is refused.
#![tactic(auto)]

mod book;
mod core_fault;
mod refusal;
mod settings;
mod tried;

pub use book::Book;
pub use core_fault::CoreFault;
pub use refusal::{Refusal, keep, tried_with};
pub use settings::{
    DOCUMENTS_LEAST, DOCUMENTS_MOST, JOURNAL_LEAST, JOURNAL_MOST, RETRIES_LEAST, RETRIES_MOST,
    RETRIES_STANDARD, Settings,
};
pub use tried::Tried;
