//! Which documents satisfy a restriction.
#![tactic(auto)]

mod near;
mod sat;
mod value;
mod walk;
mod word;

pub use sat::satisfies;
