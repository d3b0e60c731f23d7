//! The bench: a standing set with its history; each call is one step of a machine, and can be taken back in any causally
//! allowed order (Danos and Krivine 2004).
#![tactic(auto)]

pub mod bench;
pub mod changed;
pub mod earlier;
pub mod faults;
mod firing;
pub mod laws;
mod limit;
pub mod lines;
pub mod reading;
pub mod reducing;
mod standing;

pub use bench::Bench;
pub use faults::{FireFault, PairFault, ProposeFault, ReserveFault, UndoFault};
pub use ic_history::{EarlierLines, PairNote, Proposal};
pub use ic_link::LinkStore;
pub use ic_set::{ActivePair, Fired, Wire};
pub use ic_table::PortTable as Store;
pub use reducing::{End, Gate, NoGate, fire_least};
