//! Tests of `ic_work`.

mod absorbing;
mod gates;
mod random_nets;
mod sweeps;
mod tickets;
