//! Lists of firings and undos, and their causal equivalence: the letters of a history, the moves that lead a list to the
//! firings of what stands in canonical order, and a checker of moves (Danos and Krivine 2004).
#![tactic(auto)]

pub mod accepted;
pub mod canonical;
pub mod checking;
mod concurrency;
mod cursor;
pub mod faults;
mod known;
pub mod laws;
pub mod lists;
pub mod moving;
pub mod past;
mod reading;
mod sorting;

pub use accepted::letters;
pub use canonical::moves_to_canonical;
pub use checking::check;
pub use faults::TraceFault;
pub use laws::{causes_are_those_of_the_firing, consistency, moves_keep_what_stands};
pub use lists::Letter;
pub use moving::Move;
pub use past::{Past, is_causal_order};
