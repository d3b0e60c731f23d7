//! Tests of lists of firings and undos: exchanges, canonical lists, and the events of a run's letters.
#![tactic(auto)]

#[cfg(test)]
mod causal;
#[cfg(test)]
mod checking;
#[cfg(test)]
mod past;
#[cfg(test)]
mod traces;
