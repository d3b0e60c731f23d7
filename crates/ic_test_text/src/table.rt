//! Tests of `ic_table`.

mod growth;
mod paths;
mod shared_slots;
mod side_by_side;
mod taken_at_once;
