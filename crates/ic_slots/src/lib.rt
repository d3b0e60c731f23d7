//! Slots of records, found by number.
#![tactic(auto)]

pub mod growth;
pub mod index;
pub mod slot;

pub use index::SlotIndex;
pub use slot::OptionalSlot;
