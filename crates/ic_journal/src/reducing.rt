//! The reduction of a bench by one worker: the active pair with the least lead is fired, again and again.

pub mod end;
pub mod gate;
mod least;

pub use end::End;
pub use gate::{Gate, NoGate};
pub use least::fire_least;
