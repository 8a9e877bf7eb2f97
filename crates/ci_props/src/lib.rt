//! The properties of documents: their numbers, names and kinds, and how their values compare.
#![tactic(auto)]

mod pattern;
mod property;
mod relation;

pub use pattern::matches_pattern;
pub use property::{Kind, kind_of, name_of, named};
pub use relation::{Relation, compare};
