//! The reduction of a bench by many workers: each takes hints of what may be active, claims them, and fires. What they
//! leave is fired in the order of one worker.
//!
//! The workers' calls come in any order that their threads give them, so which events a sweep chooses differs from run
//! to run; whatever it chooses is a lawful extension of what stood. A sweep that leaves no active pair leaves what
//! every such sweep leaves.
#![tactic(auto)]

mod crew;
mod floor;
mod hand;
mod hints;
mod limits;
mod preparing;
pub mod sweep_size;
pub mod sweeping;
pub mod swept;
mod tickets;
mod worker;

pub use ic_claim::{MAX_BUDGET, MAX_WORKERS};
pub use ic_journal::{End, Gate, NoGate};
pub use sweep_size::SweepSize;
pub use sweeping::sweep;
pub use swept::{SweepFault, Swept};
