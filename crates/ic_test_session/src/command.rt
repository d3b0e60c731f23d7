//! Tests of `ic_command`.

mod commands;
mod lines;
