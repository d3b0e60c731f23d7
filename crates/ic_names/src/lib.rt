//! Names of agents as links in one table, in which each name stands once.
#![tactic(auto)]

mod block;
mod entry;
mod key;
pub mod known;
pub mod laws;
pub mod queue;
mod rows;
pub mod table;

pub use key::NameKey;
pub use known::KnownNames;
pub use queue::LeadQueue;
pub use table::{NameId, NameTable};
