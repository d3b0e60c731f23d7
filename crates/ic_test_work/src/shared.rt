//! Tests of `ic_shared`.

mod earlier;
mod missing;
mod refused_growth;
mod settling;
mod stale;
mod stress;
