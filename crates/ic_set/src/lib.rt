//! The events of a bench with the agents, the links and the causes that they leave, under ids.
#![tactic(auto)]

pub mod admission;
pub mod bare;
mod by_rank;
mod entering;
mod firing;
mod joining;
pub mod kinds;
pub mod nets;
pub mod orders;
pub mod pairs;
mod reading;
pub mod removal;
pub mod wires;

pub use bare::BareSet;
pub use pairs::{ActivePair, Fired};
pub use wires::Wire;
