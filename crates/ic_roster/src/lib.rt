//! Who is there: agents and standing events, under their ids and by their names, which lie in one table. Each event keeps its
//! direct causes, and the events whose direct cause it is.
#![tactic(auto)]

mod agent_records;
pub mod agents;
mod dependents;
mod event_ids;
mod event_record;
mod event_records;
pub mod events;
pub mod interaction;
mod reserving;
pub mod roster;

pub use agent_records::PlacedAgent;
pub use agents::AgentEntry;
pub use event_ids::EventIds;
pub use events::{EventEntry, NewEvent};
pub use interaction::Interaction;
pub use roster::Roster;
