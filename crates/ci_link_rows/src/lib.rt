//! Tests of talks with daemons, in memory and as a process.
#![tactic(auto)]

#[cfg(test)]
mod children;
#[cfg(test)]
mod frames;
#[cfg(test)]
mod outcomes;
#[cfg(test)]
mod spawners;
#[cfg(test)]
mod table;
#[cfg(test)]
mod talks;
