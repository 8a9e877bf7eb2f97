//! Tests of filters over files in memory, and of their service over a pipe: calls as bytes, and the
//! answers as bytes.
#![tactic(auto)]

#[cfg(test)]
mod answers;
#[cfg(test)]
mod ends;
#[cfg(test)]
mod failing;
#[cfg(test)]
mod files;
#[cfg(test)]
mod frames;
#[cfg(test)]
mod kinds;
#[cfg(test)]
mod pipe;
#[cfg(test)]
mod said;
#[cfg(test)]
mod service;
#[cfg(test)]
mod table;
