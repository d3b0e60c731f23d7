//! The history of a bench: its lines, kept by the places of names in a table, and the lines as they were at some time.
#![tactic(auto)]

mod changed;
pub mod earlier;
pub mod history;
pub mod kept;
pub mod limit;
pub mod notes;
mod now_and_then;
pub mod proposal;
mod reading;

pub use earlier::EarlierLines;
pub use history::History;
pub use kept::KeptLine;
pub use limit::Limit;
pub use notes::PairNote;
pub use proposal::Proposal;
