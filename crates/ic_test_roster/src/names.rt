//! Tests of `ic_names`.

mod queue;
mod table;
