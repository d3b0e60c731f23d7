//! The program icbench over any words, files and streams: its command line, its session, and the status with which it ends.
#![tactic(auto)]

mod help;
mod options;
mod program;
mod sources;
mod statuses;

pub use options::Options;
pub use program::{Host, refuse_words, run_program};
