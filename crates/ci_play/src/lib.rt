//! A list of steps, played one after the other on a catalogue.
#![tactic(auto)]

mod batch_out;
mod conditions;
mod copies;
mod latest;
mod play;
mod same;
mod standing;
mod step;
mod steps;
mod told;

pub use standing::{Standing, run_and_list};
pub use step::Step;
pub use steps::run_core;
