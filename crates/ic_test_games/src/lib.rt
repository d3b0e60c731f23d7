//! What tests of calls play with: players of benches, names and events as texts, random nets and numbers.
#![tactic(auto)]

pub mod answers;
pub mod calls;
pub mod events;
pub mod names;
pub mod numbers;
pub mod player;
pub mod random_nets;
