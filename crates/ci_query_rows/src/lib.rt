//! Tests of what becomes of a document, of frames, of the reader of queries, and of what satisfies them:
//! worked rows as tables.
#![tactic(auto)]

#[cfg(test)]
mod breaks;
#[cfg(test)]
mod chunks;
#[cfg(test)]
mod copies;
#[cfg(test)]
mod cost;
#[cfg(test)]
mod entries;
#[cfg(test)]
mod faults;
#[cfg(test)]
mod frames;
#[cfg(test)]
mod keys;
#[cfg(test)]
mod limits;
#[cfg(test)]
mod patterns;
#[cfg(test)]
mod pieces;
#[cfg(test)]
mod query;
#[cfg(test)]
mod satisfy;
#[cfg(test)]
mod show;
#[cfg(test)]
mod table;
#[cfg(test)]
mod transcripts;
