//! Tests of lists of steps, played on a catalogue over memory.
#![tactic(auto)]

#[cfg(test)]
mod answers;
#[cfg(test)]
mod changes;
#[cfg(test)]
mod copies;
#[cfg(test)]
mod deaths;
#[cfg(test)]
mod outcomes;
#[cfg(test)]
mod returns;
#[cfg(test)]
mod standings;
#[cfg(test)]
mod starts;
#[cfg(test)]
mod steps;
