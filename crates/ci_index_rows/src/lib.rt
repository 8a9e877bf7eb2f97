//! Tests of what an index is made of: rows, segments, and views of parts.
#![tactic(auto)]

#[cfg(test)]
mod parts;
#[cfg(test)]
mod rows;
#[cfg(test)]
mod segments;
#[cfg(test)]
mod table;
#[cfg(test)]
mod view;
