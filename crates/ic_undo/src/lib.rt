//! Undoing more than one event at once: an event with all that depends on it, and all events; marks, and going back to
//! them.
#![tactic(auto)]

pub mod absorbing;
mod among;
mod backwards;
pub mod faults;
pub mod going_back;
pub mod going_back_since;
pub mod laws;
mod marked_events;
pub mod marking;
pub mod marks;
mod missing;
pub mod obstacle;
mod outside;
mod ready;
pub mod resting;
mod turns;
pub mod unwinding;

pub use absorbing::absorb;
pub use faults::{AbsorbFault, BackFault, Counts, UndoAllFault, UnwindFault};
pub use going_back::back;
pub use going_back_since::back_since;
pub use marking::mark;
pub use marks::Mark;
pub use obstacle::Obstacle;
pub use resting::resting_on;
pub use unwinding::{clear, undo_all, unwind};
