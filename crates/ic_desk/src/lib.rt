//! A bench with marks of what stood on it, and what it answers to each request and question.
#![tactic(auto)]

mod absorbing;
pub mod desk;
pub mod fault;
mod going_back;
mod marking;
mod named_mark;
mod obstacle_text;
pub mod telling;
mod texts;

pub use desk::{Desk, MAX_MARKS};
pub use fault::DeskFault;
pub use ic_answer::{Answer, RULES, Refused};
pub use ic_work::{Gate, MAX_BUDGET, MAX_WORKERS, NoGate, SweepSize};
