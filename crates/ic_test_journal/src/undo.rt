//! Tests of `ic_undo`.

mod absorbing;
mod going_back;
mod obstacles;
mod unwinding;
