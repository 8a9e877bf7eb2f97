//! Queries: a text is read as a tree of restrictions, or as the first fault in it.
#![tactic(auto)]

mod grammar;
mod items;
mod law;
mod operands;
mod parsing;
mod phrase;
mod reader;
mod repetition;
mod term;
mod value;

pub use ci_dialect::{QueryFault, QueryKind, Restriction, Slot, Slots};
pub use law::{query_law, repetition_law};
pub use parsing::{OPEN_SIGNS, parse};
