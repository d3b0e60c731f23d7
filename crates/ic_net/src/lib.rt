//! Nets without links: the net of a start, the step by an event, and replays.
#![tactic(auto)]

mod agents;
mod children;
mod entries;
mod far;
pub mod fault;
pub mod laws;
mod naming;
pub mod net;
mod pairs;
mod placing;
pub mod replays;
mod rewiring;
mod same;
pub mod sheet;
mod step;
mod tables;
mod wires;

pub use fault::StepFault;
pub use ic_name::{Kind, Profile};
pub use ic_start::{Born, Start, outcome};
pub use net::Net;
pub use replays::{ReplayFault, replay};
pub use sheet::{NetMaker, NetSheet, PlacedAgent, PlacedPartners, PlacedPort, SheetLists};
