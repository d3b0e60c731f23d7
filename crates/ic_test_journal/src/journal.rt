//! Tests of `ic_journal`.

mod born_pairs;
mod both_stores;
mod histories;
mod ids;
mod limits;
mod proposals;
mod reducing;
mod wires;
