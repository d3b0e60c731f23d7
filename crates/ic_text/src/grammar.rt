//! The text of a net: its tokens, its grammar, the start that it denotes, and what can be wrong with it.

pub mod bytes;
pub mod laws;
pub mod limits;
pub mod refusal;

pub use refusal::Refusal;
