//! Stores of links: what each promises of its list of links, and the plain one.
#![tactic(auto)]

pub mod ends;
pub mod laws;
mod makers;
pub mod principals;
pub mod rows;
pub mod rule_links;
pub mod store;

pub use ends::{ends_at, is_of, one_if_same, other_end};
pub use laws::{has_room, there_and_back};
pub use principals::{Principals, principals_of};
pub use rows::LinkRows;
pub use rule_links::RuleLinks;
pub use store::{Far, LinkStore, MAX_JOINS};
