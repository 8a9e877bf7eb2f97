//! Tests of the whole catalogue over objects in memory: worked sessions as tables, and each call that takes memory.
#![tactic(auto)]

#[cfg(test)]
mod catalogue;
#[cfg(test)]
mod daemons;
#[cfg(test)]
mod dialect;
#[cfg(test)]
mod endless;
#[cfg(test)]
mod ends;
#[cfg(test)]
mod filtering;
#[cfg(test)]
mod large;
#[cfg(test)]
mod pieces;
#[cfg(test)]
mod requests;
#[cfg(test)]
mod session;
#[cfg(test)]
mod sessions;
#[cfg(test)]
mod table;
#[cfg(test)]
mod unread;
