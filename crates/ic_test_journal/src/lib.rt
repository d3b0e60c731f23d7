//! Tests of public calls: steps and replays of nets, benches, and undoing. A folder is named after the crate whose calls its modules test.
#![tactic(auto)]

#[cfg(test)]
mod journal;
#[cfg(test)]
mod net;
#[cfg(test)]
mod orders;
#[cfg(test)]
mod places;
#[cfg(test)]
mod undo;
