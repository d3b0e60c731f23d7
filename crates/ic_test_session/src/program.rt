//! Tests of `ic_program`.

mod command_lines;
mod failures;
mod gates;
mod running;
mod sessions;
