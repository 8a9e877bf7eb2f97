//! Paths as places under the catalogue's root: the prefixes that hold them, and their numbers.
#![tactic(auto)]

mod number_faults;
mod numbered;
mod numbers;
mod places;
mod prefix;

pub use number_faults::{AdoptFault, NumberFault};
pub use numbers::{DOCUMENTS, Numbers};
pub use prefix::Prefix;
