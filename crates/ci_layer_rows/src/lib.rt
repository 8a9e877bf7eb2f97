//! Tests of the lowest layers: plain data, lines, words, paths and their numbers, and the change list.
#![tactic(auto)]

#[cfg(test)]
mod base;
#[cfg(test)]
mod changes;
#[cfg(test)]
mod copies;
#[cfg(test)]
mod lines;
#[cfg(test)]
mod noise;
#[cfg(test)]
mod notices;
#[cfg(test)]
mod paths;
#[cfg(test)]
mod table;
#[cfg(test)]
mod trials;
#[cfg(test)]
mod varints;
#[cfg(test)]
mod words;
