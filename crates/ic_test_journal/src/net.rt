//! Tests of `ic_net`.

mod replays;
mod steps;
