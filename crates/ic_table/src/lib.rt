//! A store of links by port records: each spot finds its record at once, and from there on all goes by slots.
#![tactic(auto)]

mod changes;
mod counting;
mod joining;
mod labels;
mod link_records;
mod records;
mod runs;
mod splices;
pub mod table;
mod two_slots;
mod walks;

pub use table::PortTable;
