//! Texts of nets: the start that a text denotes, its first fault, and the canonical text of a net.
#![tactic(auto)]

mod builder;
pub mod counts;
pub mod fault;
pub mod grammar;
mod lexer;
mod links;
mod name_slots;
mod names;
pub mod print;
pub mod read;
pub mod round_trip;
mod seen;

pub use counts::counted_wires;
pub use fault::TextFault;
pub use grammar::Refusal;
pub use print::{print_agents, print_net, print_sheet};
pub use read::read_net;
