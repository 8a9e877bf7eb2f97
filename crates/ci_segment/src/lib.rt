//! Segments: the keys of many documents with their postings, packed.
#![tactic(auto)]

mod build;
mod fault;
mod fields;
mod find;
mod gap;
mod lookup;
mod places;
mod postings;
mod put;
mod read;
mod segment;
mod steps;

pub use fault::SegmentFault;
pub use postings::{postings_law, read_postings};
pub use segment::{Segment, segment_law};
pub use steps::Steps;
