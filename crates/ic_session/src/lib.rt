//! A session: a net as text, then commands, each of which is answered. If it explains itself, it answers questions, too.
#![tactic(auto)]

mod advice;
pub mod demand;
mod echo;
mod expected;
pub mod fault;
pub mod laws;
mod listed_events;
pub mod mode;
pub mod net_input;
mod net_notes;
mod net_session;
mod next_demand;
mod notes;
pub mod one_text;
mod place;
pub mod prompts;
pub mod refusal;
pub mod session;
pub mod setting;
pub mod streams;
mod taken_line;

pub use demand::Demand;
pub use fault::Fault;
pub use ic_desk::{Gate, MAX_BUDGET, MAX_WORKERS, NoGate};
pub use mode::Mode;
pub use prompts::Prompts;
pub use session::{MAX_READS, Status, run_session};
pub use setting::Setting;
pub use streams::{Sink, Source};
