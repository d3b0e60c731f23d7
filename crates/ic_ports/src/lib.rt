//! Port records in slots that are found by arithmetic.
#![tactic(auto)]

mod end_slots;
mod own_ports;
mod packed_ends;
pub mod port_record;
pub mod port_store;
mod strays;

pub use end_slots::EndSlots;
pub use port_record::{RingLabel, Room};
pub use port_store::PortStore;
