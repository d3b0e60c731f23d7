//! Starts, what a text denotes, and the rule table.
#![tactic(auto)]

pub mod links;
pub mod rule;
pub mod start;
pub mod texts;

pub use links::{End, StartLinks};
pub use rule::{Born, outcome};
pub use start::Start;
pub use texts::Texts;
