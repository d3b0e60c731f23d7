//! Lines of bounded length from a reader, and replies to a writer.

mod feeds;
pub mod input;
pub mod output;
pub mod piece;

pub use input::Input;
pub use output::{Output, write_reply};
pub use piece::{IoFault, Piece};
