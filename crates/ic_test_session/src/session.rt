//! Tests of `ic_session`.

mod drips;
mod echoes;
mod faults;
mod flushes;
mod nets;
mod repeated_lines;
mod running;
