//! What the parts of a net are called: kinds, names of agents, events, ports, ids, links, and the lines of a history.
#![tactic(auto)]

pub mod event_names;
pub mod events;
pub mod faults;
pub mod ids;
pub mod kinds;
pub mod laws;
pub mod limits;
pub mod lines;
pub mod names;
pub mod numbers;
pub mod ports;
pub mod rules;
mod shapes;

pub use event_names::{EventName, write_pair};
pub use events::Event;
pub use faults::{ChildFault, NameFault};
pub use ids::{AgentId, EventId, Link, LinkId, MakerId, Spot};
pub use kinds::Kind;
pub use lines::{Call, Line, Reply};
pub use names::AgentName;
pub use ports::Port;
pub use rules::{Profile, RuleEnd};
