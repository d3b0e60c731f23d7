//! What a bench answers to each command, and what it tells of itself.
#![tactic(auto)]

pub mod agents;
pub mod answer;
pub mod causes;
mod changing;
pub mod commands;
pub mod dependents;
pub mod histories;
pub mod laws;
mod listing;
mod named;
mod reading;
mod reducing;
pub mod refused;
pub mod rules;
pub mod stepping;
pub mod unstepping;
pub mod untold;
mod unwinding;
mod why;
pub mod wires;

pub use agents::tell_agents;
pub use answer::Answer;
pub use causes::tell_causes;
pub use commands::carry_out;
pub use dependents::tell_dependents;
pub use histories::tell_history;
pub use reducing::end_answer;
pub use refused::Refused;
pub use rules::RULES;
pub use stepping::step_often;
pub use unstepping::unstep;
pub use untold::text_or_refused;
pub use wires::tell_wire;
