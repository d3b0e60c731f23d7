//! Tests of `ic_net`.

mod nets;
mod steps;
