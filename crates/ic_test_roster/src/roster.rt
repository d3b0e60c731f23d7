//! Tests of `ic_roster`.

mod agents;
mod dependents;
mod standing;
