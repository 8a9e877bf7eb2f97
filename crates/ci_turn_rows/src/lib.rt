//! Tests of the turn lock, over a value that keeps a list of entries and a total.
#![tactic(auto)]

mod rows;
mod tally;
#[cfg(test)]
mod tests;

pub use rows::{idle_seat, many_seats, two_threads, worn_at_once};
pub use tally::{Entry, Tally};
